// No code: what the calls for C on films of bytes, on counts and on a room promise, proved over their contracts.

#![tactic(auto)]

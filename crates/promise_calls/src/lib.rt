// No code: what is promised of every call alike, on films of 16 bits, of bytes and from counts, proved over their contracts.

#![tactic(auto)]

// The promises of the byte calls, proved over their contracts. Nothing runs.

#![tactic(auto)]

// The promises of counting and mapping, proved over their contracts. Nothing runs.

#![tactic(auto)]

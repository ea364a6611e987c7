// No code: films that fitted before order 6 come out the same, with the same refusals, proved over the contracts of the calls.

#![tactic(auto)]

// No code: the promises of the calls on plain files, proved over their contracts.

#![tactic(auto)]

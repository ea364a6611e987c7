// No code: the demands as theorems over the contracts, and the table of worked numbers.

#![tactic(auto)]

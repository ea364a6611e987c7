// No code: order 13 as theorems over the contract: a window around each pixel.

#![tactic(auto)]

// Demand 3, K2 and K9 about lists of what a host hands to the functions that take a caller: definitions and proofs, no code.
#![tactic(auto)]

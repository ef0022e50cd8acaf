// The claims over lists of calls under a route: definitions and proofs, no code.
#![tactic(auto)]

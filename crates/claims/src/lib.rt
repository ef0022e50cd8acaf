// Claims about lists of calls on a guidance: definitions and proofs, no code.
#![tactic(auto)]

// Laws of the two editions of the call record: definitions and proofs, no code.
#![tactic(auto)]

// Laws of the configuration record, the call record and whole recordings: definitions and proofs, no code.
#![tactic(auto)]

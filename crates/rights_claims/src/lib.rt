// Claims about lists of calls by any callers: definitions and proofs, no code.
#![tactic(auto)]

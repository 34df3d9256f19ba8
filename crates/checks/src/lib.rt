// Theory only: what a list of checks decides. It stands in `specs/` and `proofs/`.

#![tactic(auto)]

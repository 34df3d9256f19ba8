// Theory only: a table that is read step by step as a list, and what is asked of a list. It stands in `specs/` and `proofs/`.

#![tactic(auto)]

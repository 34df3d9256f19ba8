// Theory only: what holds of all elements of a list or of each two, and its permutations. It stands in `specs/` and `proofs/`.

#![tactic(auto)]

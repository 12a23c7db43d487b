//! Lemmas on lists, options, results and numbers that several crates cite. All of them are in `proofs/`.
#![tactic(auto)]

// What is claimed, in proofs/: every theorem of a library that a reader is told of, at its full type. This crate has no code.
#![tactic(auto)]

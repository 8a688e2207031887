//! What a command does, step by step: what is seen of the outside before and after each step, the few steps that all
//! commands are made of, their sequence, and laws on them. A definition of a command is a sequence of steps, in the
//! order of its work; the contract of the code says that it did these steps.
//!
//! The definitions are in `specs/`, the laws in `proofs/`. There is no code: steps are for contracts.
#![tactic(auto)]

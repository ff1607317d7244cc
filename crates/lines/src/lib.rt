//! The lines that are printed for a trial file: the outcome of its trial, or why it is refused.
#![tactic(auto)]

mod flips;
pub mod refused;
pub mod verdict;

//! Loops over marks and counts, one a qubit or a check, and over lists of their numbers.
#![tactic(auto)]

pub mod changing;
pub mod looking;
pub mod masks;
pub mod statuses;

//! Trials: one is opened on the table of a code, calls are made on it, and it is closed.
#![tactic(auto)]

pub mod report;
pub mod slip;
pub mod tally;
pub mod trial;

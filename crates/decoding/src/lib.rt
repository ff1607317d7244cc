//! Whole trials: from a report to a verdict.
#![tactic(auto)]

pub mod peeling;
pub mod whole;

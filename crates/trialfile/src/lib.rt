//! Trial files: a seed, a report and the stages of a run, read from text.
#![tactic(auto)]

pub mod fault;
pub mod file;
mod kind;
mod reading;
pub mod sizes;

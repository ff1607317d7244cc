//! What the programs share that play recorded lines to codes and trials: a line as its word and its numbers, and the codes that these give.
#![tactic(auto)]

pub mod answers;
pub mod codes;
pub mod line;
pub mod numbers;
pub mod questions;
pub mod refused;

//! Grid names of a product code's qubits, checks and generators, beside their stored numbers.
#![tactic(auto)]

mod kind;
mod lines;
pub mod name;
pub mod texts;

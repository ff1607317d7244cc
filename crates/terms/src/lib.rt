//! The words that all parts of the decoder share: rows and sides of a code, and numbered refusals.
#![tactic(auto)]

pub mod refusal;
pub mod row;

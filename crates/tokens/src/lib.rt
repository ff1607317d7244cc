//! The tokens of a text: words, numbers and the end, each with its byte place.
#![tactic(auto)]

pub mod fault;
pub mod section;
pub mod token;
pub mod tokens;

//! The product code of a seed.
#![tactic(auto)]

mod part;
pub mod place;
pub mod product;
pub mod seed;

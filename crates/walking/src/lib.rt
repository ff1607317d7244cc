//! The walk over a cluster: its members and its checks.
#![tactic(auto)]

mod finding;
pub mod found;
mod ground;
mod pending;
mod scene;
mod steps;
pub mod walker;

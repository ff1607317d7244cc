//! The memory of a walk.
use crate::pending::Pending;

/// What a walk has found and what it has still to do: the qubits that wait to be visited, those that were visited, and the checks that were met.
#[derive(Drop)]
pub(crate) struct Ground {
    pub(crate) pending: Pending,
    pub(crate) members: Vec<u16>,
    pub(crate) internal: Vec<u16>,
    pub(crate) connecting: Vec<u16>,
    /// A mark for each check that was met.
    pub(crate) met: Vec<bool>,
}

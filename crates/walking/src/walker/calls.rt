//! What is asked of a walker.
ghost use Rattle.std.specs.Prelude.{◌≡◌, [], IfOk};
ghost use Rattle.table.specs.OfTable.{meaning_of};
ghost use Rattle.walking.specs.Walked.{suits, walked};

use super::Walker;
use crate::finding::find;
use crate::found::Connecting;
use crate::ground::Ground;
use crate::pending::Pending;
use crate::scene::Scene;
use marking::statuses::is_erased;
use marks::{Marks, scratch_fault};
use rules::answers::Status;
use std::alloc::{AllocError, Global};
use table::Table;
use terms::refusal::Refusal;

impl<'t> Walker<'t> {
    /// Takes all memory that walks over this code need; no later call allocates.
    pub fn new(heap: Global, table: &'t Table) -> Result<Walker<'t>, AllocError>
        ensures { IfOk result (λ w. w ≡ record { table = table.now; members = []; internal = [] }) }
    {
        let qubits = table.qubits();
        let checks = table.checks() as usize;
        let ground = Ground {
            pending: Pending::new(heap, qubits)?,
            members: Vec::with_capacity(heap, qubits as usize)?,
            internal: Vec::with_capacity(heap, checks)?,
            connecting: Vec::with_capacity(heap, checks)?,
            met: vec![in heap; false; checks]?,
        };
        Ok(Walker { table, ground })
    }
}

impl Walker<'_> {
    /// Finds the cluster of an erased qubit and its internal checks, and tells its connecting ones. The scratch bytes, one a qubit, are in the end as
    /// they were. Refused, with nothing changed, where the scratch bytes have a fault, and where no qubit `start` of this code is seen to be erased:
    /// where it is not, or there is not one status a qubit and one mark a check.
    pub fn walk(
        &mut self,
        status: &[Status],
        closed: &[bool],
        start: u16,
        scratch: &mut [u8],
    ) -> Result<Connecting, Refusal>
        ensures does { (result, self.new) ≡ walked status.now closed.now start scratch.old self.old }
        ensures scratch { scratch.new ≡ scratch.old }
    {
        let qubits = self.table.qubits() as usize;
        scratch_fault(scratch, qubits)?;
        if !suits(self.table, status, closed, start) {
            return Err(Refusal::NothingErased);
        }
        let scene = Scene {
            table: self.table,
            status,
            closed,
            start,
        };
        let mut marks = Marks::begin(scratch, qubits);
        Ok(find(&scene, &mut self.ground, &mut marks))
    }

    /// The qubits of the cluster that was walked last, rising.
    pub fn members(&self) -> &[u16]
        ensures { result.now ≡ self.now.members }
    {
        &self.ground.members
    }

    /// The internal checks of the cluster that was walked last, rising.
    pub fn internal(&self) -> &[u16]
        ensures { result.now ≡ self.now.internal }
    {
        &self.ground.internal
    }
}

/// Whether there is a status for each qubit and a mark for each check, and the start is erased.
fn suits(table: &Table, status: &[Status], closed: &[bool], start: u16) -> bool
    ensures { result ≡ suits (meaning_of table.now) status.now closed.now start }
{
    status.len() == table.qubits() as usize
        && closed.len() == table.checks() as usize
        && is_erased(start, status)
}

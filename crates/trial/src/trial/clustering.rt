//! Solving the cluster of a qubit.
ghost use Rattle.std.specs.Prelude.{◌≡◌};
ghost use Rattle.rules.specs.Calls.{solve};
ghost use Rattle.table.specs.OfTable.{meaning_of};

use super::Trial;
use super::finding::find;
use crate::slip::Slip;
use marks::scratch_fault;
use rules::answers::Cluster;
use terms::refusal::Refusal;

impl Trial<'_> {
    /// Solves the cluster of an erased qubit over its internal checks, with a scratch byte for each qubit. With a free check the cluster is shelved with
    /// that check, which is closed. Otherwise the least solution is flipped, the cluster is done, and chosen grows by the slack. Without a solution the
    /// trial is void, whatever slip is shown. The scratch bytes are in the end as they were.
    pub fn solve(&mut self, slip: &Slip, qubit: u16, scratch: &mut [u8]) -> Result<Cluster, Refusal>
        ensures does { (result, self.new.state, scratch.new) ≡ solve (meaning_of self.old.table) self.old.state slip.now.number qubit scratch.old }
        ensures table { self.new.table ≡ self.old.table }
    {
        let shown = self.is_shown(slip);
        let qubits = self.board.erasures.table.qubits();
        if qubit >= qubits {
            return Err(Refusal::QubitTooLarge);
        }
        if self.void {
            scratch_fault(scratch, qubits as usize)?;
            return Err(Refusal::NoSolution);
        }
        let board = &self.board;
        let closed = self.closed.as_slice();
        let walker = &mut self.walker;
        let system = &mut self.system;
        let finding = find(walker, system, board, closed, qubit, scratch)?;
        let Some(finding) = finding else {
            self.void = true;
            return Err(Refusal::NoSolution);
        };
        if !shown {
            return Err(Refusal::WrongSlip);
        }
        let Some(check) = finding.free else {
            let system = &self.system;
            self.board.finish_each(system.unknowns(), system.least());
            self.chosen += finding.slack;
            return Ok(Cluster::Flipped);
        };
        let walker = &self.walker;
        self.board.shelve_each(walker.members());
        self.closed[check as usize] = true;
        // There is room: each entry has a closed check and qubits of its own.
        let _ = self.shelf.put(walker.members(), check);
        Ok(Cluster::Shelved)
    }
}

//! Solving at the lowest qubit where that can be done.
ghost use Rattle.std.specs.Prelude.{◌≡◌};
ghost use Rattle.running.specs.Solving.{solve_lowest};
ghost use Rattle.table.specs.OfTable.{meaning_of};

use super::Trial;
use super::passing::lowest_solvable;
use crate::slip::Slip;
use rules::answers::Cluster;
use terms::refusal::Refusal;

impl Trial<'_> {
    /// Solves at the lowest erased qubit that a solve is not refused at for several connecting checks or too many unknowns, if there is one. To find
    /// it no cluster is walked twice.
    pub fn solve_lowest(
        &mut self,
        slip: &Slip,
        scratch: &mut [u8],
    ) -> Result<Option<Cluster>, Refusal>
        ensures does { (result, self.new.state, scratch.new) ≡ solve_lowest (meaning_of self.old.table) self.old.state slip.now.number scratch.old }
        ensures table { self.new.table ≡ self.old.table }
    {
        let board = &self.board;
        let closed = self.closed.as_slice();
        let qubit = lowest_solvable(
            &mut self.walker,
            self.passed.as_mut_slice(),
            board,
            closed,
            self.void,
            scratch,
        );
        let Some(qubit) = qubit else {
            return Ok(None);
        };
        let cluster = self.solve(slip, qubit, scratch)?;
        Ok(Some(cluster))
    }
}

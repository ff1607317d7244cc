//! Settling the newest entry of the shelf.
ghost use Rattle.std.specs.Prelude.{◌≡◌};
ghost use Rattle.rules.specs.Calls.{settle};
ghost use Rattle.table.specs.OfTable.{meaning_of};

use super::Trial;
use super::solving::solve_touched;
use crate::slip::Slip;
use terms::refusal::Refusal;

impl Trial<'_> {
    /// Settles the newest entry of the shelf, when nothing is erased: its check is opened, and of the ways to explain the odd ones of the open checks that
    /// hold one of its qubits by its qubits the least is flipped; they are done, and chosen grows by the slack. That there is such a way is proved of the
    /// rules (`settle_never_lacks_a_solution`); where there were none, the trial would stay as it is.
    pub fn settle(&mut self, slip: &Slip) -> Result<(), Refusal>
        ensures does { (result, self.new.state) ≡ settle (meaning_of self.old.table) self.old.state slip.now.number }
        ensures table { self.new.table ≡ self.old.table }
    {
        let shown = self.is_shown(slip);
        if self.void {
            return Err(Refusal::NoSolution);
        }
        let board = &self.board;
        board.erasures.list(&mut self.listed);
        if !self.listed.is_empty() {
            return Err(Refusal::StillErased);
        }
        let shelf = &self.shelf;
        let Some(entry) = shelf.newest() else {
            return Err(Refusal::ShelfEmpty);
        };
        if !shown {
            return Err(Refusal::WrongSlip);
        }
        let check = entry.check as usize;
        let was = self.closed[check];
        self.closed[check] = false;
        let slack = solve_touched(
            &mut self.system,
            board.erasures.table,
            entry.members,
            self.closed.as_slice(),
            board.odd.as_slice(),
        )?;
        let Some(slack) = slack else {
            self.closed[check] = was;
            return Err(Refusal::NoSolution);
        };
        let system = &self.system;
        self.board.finish_each(system.unknowns(), system.least());
        self.chosen += slack;
        self.shelf.drop_newest();
        Ok(())
    }
}

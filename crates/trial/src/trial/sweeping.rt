//! Sweeping.
ghost use Rattle.std.specs.Prelude.{◌≡◌};
ghost use Rattle.rules.specs.Calls.{sweep};
ghost use Rattle.table.specs.OfTable.{meaning_of};

use super::Trial;
use super::solving::solve_touched;
use crate::slip::Slip;
use terms::refusal::Refusal;

impl Trial<'_> {
    /// Flips, of the ways to explain the odd ones of the open checks that hold an erased qubit by erased qubits, the least: all erased qubits are done, and
    /// chosen grows by the slack. Without a way the trial is void, whatever slip is shown.
    pub fn sweep(&mut self, slip: &Slip) -> Result<(), Refusal>
        ensures does { (result, self.new.state) ≡ sweep (meaning_of self.old.table) self.old.state slip.now.number }
        ensures table { self.new.table ≡ self.old.table }
    {
        let shown = self.is_shown(slip);
        if self.void {
            return Err(Refusal::NoSolution);
        }
        let board = &self.board;
        board.erasures.list(&mut self.listed);
        if self.listed.is_empty() {
            return Err(Refusal::NothingErased);
        }
        let slack = solve_touched(
            &mut self.system,
            board.erasures.table,
            self.listed.as_slice(),
            self.closed.as_slice(),
            board.odd.as_slice(),
        )?;
        let Some(slack) = slack else {
            self.void = true;
            return Err(Refusal::NoSolution);
        };
        if !shown {
            return Err(Refusal::WrongSlip);
        }
        let system = &self.system;
        self.board.finish_each(system.unknowns(), system.least());
        self.chosen += slack;
        Ok(())
    }
}

//! Peeling a dangling check.
ghost use Rattle.std.specs.Prelude.{◌≡◌, ◌==◌};
ghost use Rattle.terms.specs.Answering.{checked};
ghost use Rattle.rules.specs.Calls.{dangling, peel_bars, peel};
ghost use Rattle.table.specs.OfTable.{meaning_of};
ghost use Rattle.upkeep.specs.Fault.{fault};

use super::Trial;
use crate::slip::Slip;
use marking::statuses::erased_among;
use terms::refusal::Refusal;
use terms::row::Row;

impl Trial<'_> {
    // Kept: that the table stays stands beside what happens, here, at `prune` and at `finish`: the rules have a state and no table, and a definition of both would hide one equation behind a word.
    /// Peels a dangling check, an open one that holds exactly one erased qubit: the qubit is done, flipped if the check is odd. Answers the qubit.
    pub fn peel(&mut self, slip: &Slip, check: u16) -> Result<u16, Refusal>
        ensures does { (result, self.new.state) ≡ peel (meaning_of self.old.table) self.old.state slip.now.number check }
        ensures table { self.new.table ≡ self.old.table }
    {
        self.peel_fault(slip, check)?;
        let row = self.board.erasures.table.row(Row::Check(check));
        let Some(qubit) = erased_among(row, self.board.erasures.status.as_slice()) else {
            return unreachable();
        };
        let flip = self.board.odd[check as usize];
        self.finish(qubit, flip);
        self.peeled += 1;
        Ok(qubit)
    }

    /// Whether a peel is refused, and why.
    fn peel_fault(&self, slip: &Slip, check: u16) -> Result<(), Refusal>
        ensures { result ≡ checked (fault (peel_bars (meaning_of self.now.table) self.now.state slip.now.number check)) }
    {
        if check >= self.board.erasures.table.checks() {
            return Err(Refusal::CheckTooLarge);
        }
        if self.void {
            return Err(Refusal::NoSolution);
        }
        if !self.is_dangling(check) {
            return Err(Refusal::NotDangling);
        }
        if !self.is_shown(slip) {
            return Err(Refusal::WrongSlip);
        }
        Ok(())
    }

    /// Whether a check is dangling: open, with exactly one erased qubit.
    pub(crate) fn is_dangling(&self, check: u16) -> bool
        ensures { result ≡ dangling (meaning_of self.now.table) self.now.state check }
    {
        self.closed.get(check as usize) != Some(&true) && self.board.erasures.holds_one(check)
    }

    /// Whether the slip is the trial's, by its number.
    pub(crate) fn is_shown(&self, slip: &Slip) -> bool
        ensures { result ≡ (slip.now.number == self.now.state.number) }
    {
        slip.number() == self.number
    }
}

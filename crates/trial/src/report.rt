//! What is reported of an error.
ghost use Rattle.std.specs.Prelude.{◌≡◌};
ghost use Rattle.terms.specs.Answering.{checked};
ghost use Rattle.rules.specs.Tallies.{open_bars};
ghost use Rattle.table.specs.OfTable.{meaning_of};
ghost use Rattle.upkeep.specs.Fault.{fault};

use crate::tally::Tally;
use marking::looking::{is_rising, some_past};
use table::Table;
use terms::refusal::Refusal;

/// The rising list of the lost qubits and the rising list of the odd checks.
#[derive(Clone, Copy)]
pub struct Report<'a> {
    pub lost: &'a [u16],
    pub odd: &'a [u16],
}

impl Report<'_> {
    /// Whether an opening on a table is refused, and why. Both lists are searched for each fault in turn.
    pub(crate) fn check(self, table: &Table, tally: &Tally) -> Result<(), Refusal>
        ensures { result ≡ checked (fault (open_bars (meaning_of table.now) tally.now.counts self.entry.lost.now self.entry.odd.now)) }
    {
        if some_past(table.qubits(), self.lost) {
            return Err(Refusal::QubitTooLarge);
        }
        if some_past(table.checks(), self.odd) {
            return Err(Refusal::CheckTooLarge);
        }
        if !is_rising(self.lost) || !is_rising(self.odd) {
            return Err(Refusal::NotRising);
        }
        if tally.is_full() {
            return Err(Refusal::TallyFull);
        }
        Ok(())
    }
}

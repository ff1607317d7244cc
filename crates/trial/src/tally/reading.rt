//! Reading a tally.
ghost use Rattle.std.specs.Prelude.{◌≡◌};
ghost use Rattle.trial.specs.Tallied.{counts_of, Balances};

use super::{Counts, Tally};

impl Tally {
    /// What was counted so far. Opened is solved + nothing + unfinished + the slips that are out.
    pub fn counts(&self) -> Counts
        ensures value { counts_of result ≡ self.now.counts }
        ensures balance { Balances (counts_of result) }
    {
        self.counts
    }
}

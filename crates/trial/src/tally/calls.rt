//! Making a tally, and counting on it.
ghost use Rattle.std.specs.Prelude.{◌≡◌, ◌+◌, ◌<◌, ◌==◌, nat_le};
ghost use Rattle.rules.specs.Tallies.{new_tally, one_more, closings, counted};

use super::{Counts, Tally};
use rules::answers::Outcome;

impl Tally {
    /// A tally on which nothing was opened.
    pub fn new() -> Tally
        ensures { result.counts ≡ new_tally }
    {
        Tally {
            counts: Counts::default(),
        }
    }

    /// The number that the next trial and its slip will carry.
    pub(crate) fn next(&self) -> u32
        ensures { result ≡ self.now.counts.opened + 1 }
    {
        self.counts.opened + 1
    }

    /// Whether no more trials can be opened.
    pub(crate) fn is_full(&self) -> bool
        ensures { result ≡ nat_le 1000000 self.now.counts.opened }
    {
        self.counts.opened >= 1_000_000
    }

    /// Whether no slip is out.
    pub(crate) fn has_none_out(&self) -> bool
        ensures { result ≡ (self.now.counts.opened == closings self.now.counts) }
    {
        let counts = self.counts;
        counts.opened == counts.solved + counts.nothing + counts.unfinished
    }

    /// One more is opened.
    pub(crate) fn open_one(&mut self)
        requires { self.old.counts.opened < 1000000 }
        ensures { self.new.counts ≡ one_more self.old.counts }
    {
        self.counts.opened += 1;
    }

    /// One more is closed.
    pub(crate) fn close_one(&mut self, outcome: Outcome)
        requires { closings self.old.counts < self.old.counts.opened }
        ensures { self.new.counts ≡ counted outcome self.old.counts }
    {
        match outcome {
            Outcome::Solved => self.counts.solved += 1,
            Outcome::Nothing => self.counts.nothing += 1,
            Outcome::Unfinished => self.counts.unfinished += 1,
        }
    }
}

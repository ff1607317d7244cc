//! The tally: how many trials were opened, and how they were closed.
ghost use Rattle.std.specs.Prelude.{◌+◌, ◌≤◌};

use std::marker::Model;

mod calls;
mod reading;

/// The counts of a tally. The trials that are neither solved, nor found to fit nothing, nor unfinished are not closed yet: their slips are out.
#[derive(Clone, Copy, PartialEq, Eq, Default, Debug)]
pub struct Counts {
    pub opened: u32,
    pub solved: u32,
    pub nothing: u32,
    pub unfinished: u32,
}

/// Counts openings, up to 1,000,000, and closes.
#[derive(Drop)]
pub struct Tally {
    counts: Counts,
    ghost few: { counts.opened ≤ 1000000 },
    ghost balanced: { counts.solved + counts.nothing + counts.unfinished ≤ counts.opened },
}

impl Model for Tally {
    ghost use Rattle.trial.specs.Tallied.{counts_of, Tallied};

    // the counts as the rules have them, and what is true of every tally
    ghost Value = { Tallied };

    ghost view = { λ t. record { counts = counts_of t.counts; few = t.few; balanced = t.balanced } };
}

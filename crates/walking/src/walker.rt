//! Walks over clusters of one code.
use crate::ground::Ground;
use std::marker::Model;
use table::Table;

pub mod calls;

/// Walks over clusters of a table's code, with the memory that they take.
#[derive(Drop)]
pub struct Walker<'t> {
    table: &'t Table,
    ground: Ground,
}

impl<'t> Model for Walker<'t> {
    ghost use Rattle.table.specs.OfTable.{meaning_of};
    ghost use Rattle.walking.specs.Steps.{Rested};
    ghost use Rattle.walking.specs.Walked.{Findings};

    // the table, and what the last walk found
    ghost Value = { Findings };

    ghost view = { λ w. record { table = w.table.now; members = w.ground.members.items; internal = w.ground.internal.items } };

    ghost invariant = { λ w. Rested (meaning_of w.table.now) w.ground };
}

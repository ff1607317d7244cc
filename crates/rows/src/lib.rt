//! Rows of numbers, kept end to end.
#![tactic(auto)]

use std::marker::Model;

mod calls;
mod crossing;
pub mod iter;
mod part;
mod telling;

/// Rows of numbers. All rows share one block of memory; a row starts where the one before it ends.
// Kept: tried in plain Rust, in one run: the rows and columns of a table take 479 microseconds with a `Vec` for each row, and 68 end to end.
#[derive(Drop)]
pub struct Rows {
    places: Vec<u16>,
    ends: Vec<usize>,
}

impl Model for Rows {
    ghost use Rattle.std.specs.Prelude.{ℕ, List, length};
    ghost use Rattle.rows.specs.Cut.{cuts, Rising};

    // the rows, in order
    ghost Value = { List (List ℕ) };

    ghost view = { λ r. cuts r.places.items 0 r.ends.items };

    ghost invariant = { λ r. Rising 0 r.ends.items (length r.places.items) };
}

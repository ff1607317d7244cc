//! Going over rows.
ghost use Rattle.std.specs.Prelude.{◌≡◌};
ghost use Rattle.std.specs.Iterator.{YieldsFirstRef, item_count};

use super::Rows;
use super::part::part;
use std::marker::Model;

/// The rows from some row on.
#[derive(Drop)]
pub struct Iter<'a> {
    places: &'a [u16],
    start: usize,
    ends: &'a [usize],
}

impl<'a> Model for Iter<'a> {
    ghost use Rattle.std.specs.Prelude.{ℕ, List, length};
    ghost use Rattle.rows.specs.Cut.{cuts, Rising};

    // the rows that are left
    ghost Value = { List (List ℕ) };

    ghost view = { λ r. cuts r.places.now r.start r.ends.now };

    ghost invariant = { λ r. Rising r.start r.ends.now (length r.places.now) };
}

impl Rows {
    /// All rows, in order.
    pub fn iter(&self) -> Iter
        ensures { result ≡ self.now }
    {
        Iter {
            places: &self.places,
            start: 0,
            ends: &self.ends,
        }
    }
}

impl<'a> Iterator for Iter<'a> {
    type Item = &'a [u16];

    ghost next_gives = { YieldsFirstRef (λ rows. rows) };

    ghost remaining = { item_count (λ rows. rows) };

    fn next(&mut self) -> Option<&'a [u16]> {
        let (end, later) = self.ends.split_first()?;
        let row = part(self.places, self.start, *end);
        self.start = *end;
        self.ends = later;
        Some(row)
    }
}

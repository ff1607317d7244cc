//! Making and reading rows.
ghost use Rattle.std.specs.Prelude.{◌≡◌, [], ◌∷◌, ◌++◌, length, take, is_ok, if◌then◌else◌, slice_index_or};
ghost use Rattle.std.specs.List.{concat};
ghost use Rattle.std.specs.Slice.{IsItemAt};

use super::Rows;
use super::part::{part, start};
use std::alloc::{AllocError, Global};

impl Rows {
    /// No rows. Allocates nothing.
    pub fn new(heap: Global) -> Rows
        ensures { result ≡ [] }
    {
        Rows {
            places: Vec::new(heap),
            ends: Vec::new(heap),
        }
    }

    /// Appends a row; where memory is short, the rows stay as they were.
    pub fn push(&mut self, row: &[u16]) -> Result<(), AllocError>
        ensures { self.new ≡ (if is_ok result then self.old ++ row.now ∷ [] else self.old) }
    {
        // Room for the end first, so that no places are added for a row that is then refused.
        self.ends.reserve(1)?;
        self.places.extend_from_slice(row)?;
        self.ends.push_reserved(self.places.len());
        Ok(())
    }

    /// How many rows there are.
    pub fn len(&self) -> usize
        ensures { result ≡ length self.now }
    {
        self.ends.len()
    }

    /// The numbers of a row, if there is such a row.
    pub fn get(&self, k: usize) -> Option<&[u16]>
        ensures { IsItemAt self.now k result }
    {
        let end = self.ends.get(k)?;
        Some(part(&self.places, start(&self.ends, k), *end))
    }

    /// The numbers of a row; none where there is no such row.
    pub fn row(&self, k: usize) -> &[u16]
        ensures { result.now ≡ slice_index_or self.now k [] }
    {
        self.get(k).unwrap_or(&[])
    }

    /// The numbers of the first `count` rows, as one row.
    pub(crate) fn first(&self, count: usize) -> &[u16]
        ensures { result.now ≡ concat (take count self.now) }
    {
        let rows = count.min(self.ends.len());
        part(&self.places, 0, start(&self.ends, rows))
    }
}

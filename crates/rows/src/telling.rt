//! Rows that a code tells.
ghost use Rattle.std.specs.Prelude.{◌≡◌, [], ◌∷◌, ◌++◌, is_ok, if◌then◌else◌};
ghost use Rattle.code.specs.Whole.{row_told};

use super::Rows;
use code::Code;
use std::alloc::AllocError;
use terms::row::Row;

impl Rows {
    /// Appends a row of a code in the order told, with no copy of it in between; an empty row where the code has no such row.
    /// Where memory is short, the rows stay as they were.
    pub fn push_row_of<C: Code>(&mut self, code: &C, row: Row) -> Result<(), AllocError>
        ensures { self.new ≡ (if is_ok result then self.old ++ row_told (C.meaning code.now) (C.told code.now) row ∷ [] else self.old) }
    {
        self.ends.reserve(1)?;
        code.tell_row(row, &mut self.places)?;
        self.ends.push_reserved(self.places.len());
        Ok(())
    }
}

//! Making a table.
ghost use Rattle.std.specs.Prelude.{◌≡◌, true, None};
ghost use Rattle.terms.specs.Answering.{AnswersIfMemory};
ghost use Rattle.terms.specs.declared.row.Row.{Row as RowT};
ghost use Rattle.meaning.specs.Telling.{is_row};
ghost use Rattle.table.specs.OfTable.{meaning_of, told_of};

use super::Table;
use crate::incidence::Incidence;
use crate::reading::sides;
use code::Code;
use code::turned::Turned;
use std::alloc::Global;
use terms::refusal::Refusal;

impl Table {
    /// The table of a code. Refuses only for want of memory.
    pub fn of<C: Code>(heap: Global, code: &C) -> Result<Table, Refusal>
        ensures { AnswersIfMemory result None (λ t. (meaning_of t ≡ C.meaning code.now) × ((row : RowT) → is_row (C.meaning code.now) row ≡ true → told_of t row ≡ C.told code.now row)) }
    {
        let sides = sides(heap, code)?;
        let checks = Incidence::of(heap, code)?;
        let generators = Incidence::of(heap, &Turned(code))?;
        Ok(Table {
            checks,
            generators,
            sides,
        })
    }
}

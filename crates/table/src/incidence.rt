//! The rows of one kind, read from a code.
ghost use Rattle.std.specs.Prelude.{◌≡◌, map, length, IfOk};
ghost use Rattle.std.specs.List.{range_with_len};
ghost use Rattle.terms.specs.declared.row.Row.TheVariants.{Check};
ghost use Rattle.meaning.specs.Meaning.{qubits};
ghost use Rattle.table.specs.Columns.{columns};

use code::Code;
use rows::Rows;
use std::alloc::{AllocError, Global};
use terms::row::Row;

/// The rows of one kind in the order told, and for each qubit the rows that hold it.
#[derive(Drop)]
pub(crate) struct Incidence {
    pub(crate) rows: Rows,
    pub(crate) at: Rows,
}

impl Incidence {
    /// The checks of a code. (The generators are the checks of the turned code.)
    pub(crate) fn of<C: Code>(heap: Global, code: &C) -> Result<Incidence, AllocError>
        ensures { IfOk result (λ t. (t.rows ≡ map (λ k. C.told code.now (Check k)) (range_with_len 0 (length (C.meaning code.now).checks))) × (t.at ≡ columns (qubits (C.meaning code.now)) (C.meaning code.now).checks)) }
    {
        let count = code.checks();
        let mut rows = Rows::new(heap);
        // Kept: by number, for the number is what the code is asked by.
        for k in 0..count {
            rows.push_row_of(code, Row::Check(k))?;
        }
        let at = rows.crossing(heap, count, code.qubits())?;
        Ok(Incidence { rows, at })
    }
}

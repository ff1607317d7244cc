//! The lines of the list of names.
ghost use Rattle.std.specs.Prelude.{◌≡◌, ℕ, ◌*◌, ◌<◌, ◌≤◌, true, Some};
ghost use Rattle.std.specs.List.{flat_map};
ghost use Rattle.meaning.specs.Telling.{is_row};
ghost use Rattle.naming.specs.Lines.{told_qubit, qubit_lines, row_of, row_lines};

use crate::kind::Kind;
use crate::name::Name;
use code::Code;
use std::fmt;
use terms::row::Row;

/// The lines of the qubits of one side, which fill a square of the given width.
#[derive(Drop)]
pub(crate) struct Qubits<'a> {
    pub(crate) letter: &'a str,
    pub(crate) first: u16,
    pub(crate) width: u16,
    ghost first_low: { first ≤ 1024 },
    ghost width_low: { width ≤ 32 },
}

impl fmt::Display for Qubits<'_> {
    ghost output = { λ q. Some (qubit_lines q.letter.now q.first q.width) };

    fn fmt<W: fmt::Write>(&self, f: &mut fmt::Formatter<W>) -> fmt::Result {
        for k in 0..self.width * self.width {
            let name = Name {
                word: self.letter,
                x: k / self.width,
                y: k % self.width,
                number: self.first + k,
            };
            write!(f, "{name}\n")?;
        }
        Ok(())
    }
}

/// The qubits of a row in the order told.
#[derive(Drop)]
struct Told<'c, C: Code> {
    code: &'c C,
    row: Row,
    ghost is_row: { is_row (C.meaning code.now) row ≡ true },
}

impl<C: Code> fmt::Display for Told<'_, C> {
    ghost output = { λ t. Some (flat_map told_qubit (C.Code.told t.code.now t.row)) };

    // Kept: qubit by qubit; `tell_row` appends to a list, and `fmt` is given no memory for one.
    fn fmt<W: fmt::Write>(&self, f: &mut fmt::Formatter<W>) -> fmt::Result {
        let Some(len) = self.code.row_len(self.row) else {
            return unreachable();
        };
        for k in 0..len {
            let Some(q) = self.code.row_qubit(self.row, k) else {
                return unreachable();
            };
            write!(f, " {q}")?;
        }
        Ok(())
    }
}

/// The lines of the rows of one kind, which come in lines of the given length.
#[derive(Drop)]
pub(crate) struct Rows<'c, C: Code> {
    pub(crate) code: &'c C,
    pub(crate) kind: Kind,
    pub(crate) line: u16,
    pub(crate) count: u16,
    ghost are_rows: { (k : ℕ) → k < count → is_row (C.meaning code.now) (row_of kind k) ≡ true },
    ghost some_line: { 1 ≤ line },
}

impl<C: Code> fmt::Display for Rows<'_, C> {
    ghost output = { λ r. Some (row_lines (C.Code.told r.code.now) r.kind r.line r.count) };

    fn fmt<W: fmt::Write>(&self, f: &mut fmt::Formatter<W>) -> fmt::Result {
        for k in 0..self.count {
            let name = Name {
                word: self.kind.word(),
                x: k / self.line,
                y: k % self.line,
                number: k,
            };
            let told = Told {
                code: self.code,
                row: self.kind.row(k),
            };
            write!(f, "{name} :{told}\n")?;
        }
        Ok(())
    }
}

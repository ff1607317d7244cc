//! The interface of a code: the questions that it answers, and what the answers mean.
#![tactic(auto)]

ghost use Rattle.std.specs.Prelude.{◌≡◌, ℕ, List, ◌++◌, length, is_ok, if◌then◌else◌};
ghost use Rattle.terms.specs.declared.row.Row.{Row as RowT};
ghost use Rattle.meaning.specs.Meaning.{Meaning, Sound, qubits};
ghost use Rattle.meaning.specs.Telling.{Tells, side, row_size, row_qubit};
ghost use Rattle.code.specs.Whole.{row_told};

use std::alloc::AllocError;
use terms::row::{Row, Side};

pub mod lent;
pub mod turned;

/// A code of qubits, checks and generators. No question changes the code, so the same question has the same answer.
/// A question outside its range answers `None`.
pub trait Code {
    /// The qubit sets of the checks and of the generators, and the sides.
    ghost meaning: { Self → Meaning };

    /// The order in which the qubits of each row are told.
    ghost told: { Self → RowT → List ℕ };

    /// The limits and the law of a code.
    ghost sound: { (c : Self) → Sound (meaning c) };

    /// Each row is told whole: every qubit of its set exactly once.
    ghost tells: { (c : Self) → Tells (meaning c) (told c) };

    /// How many qubits the code has.
    fn qubits(&self) -> u16
        ensures { result ≡ qubits (meaning self.now) };

    /// How many checks the code has.
    fn checks(&self) -> u16
        ensures { result ≡ length (meaning self.now).checks };

    /// How many generators the code has.
    fn generators(&self) -> u16
        ensures { result ≡ length (meaning self.now).generators };

    /// The side of a qubit.
    fn side(&self, qubit: u16) -> Option<Side>
        ensures { result ≡ side (meaning self.now) qubit };

    /// How many qubits a row has.
    fn row_len(&self, row: Row) -> Option<u16>
        ensures { result ≡ row_size (meaning self.now) (told self.now) row };

    /// A row's k-th qubit, from 0.
    fn row_qubit(&self, row: Row, k: u16) -> Option<u16>
        ensures { result ≡ row_qubit (meaning self.now) (told self.now) row k };

    /// Appends the qubits of a row to a list, in the order told; nothing where there is no such row.
    /// Where memory is wanting, the list stays as it was. A code that can tell a row faster than qubit by qubit writes its own.
    fn tell_row(&self, row: Row, list: &mut Vec<u16>) -> Result<(), AllocError>
        ensures { list.new.items ≡ (if is_ok result then list.old.items ++ row_told (meaning self.now) (told self.now) row else list.old.items) }
    {
        let Some(len) = self.row_len(row) else {
            return Ok(());
        };
        list.reserve(len as usize)?;
        // Kept: a code is asked for a row's k-th qubit (docs/codes.md), so k is what is asked and picks no element.
        for k in 0..len {
            let Some(qubit) = self.row_qubit(row, k) else {
                return unreachable();
            };
            list.push_reserved(qubit);
        }
        Ok(())
    }
}

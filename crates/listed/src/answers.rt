//! The answers of a listed code.
ghost use Rattle.std.specs.Prelude.{◌≡◌, true, false, MatchOption};
ghost use Rattle.meaning.specs.Telling.{is_row};
ghost use Rattle.listed.specs.OfListed.{meaning_of, told_of};
ghost use Rattle.listed.specs.Sound.{sound_of, tells_of};

use super::Listed;
use code::Code;
use terms::row::{Row, Side};

impl Listed {
    /// The qubits of a row, as they are listed.
    fn row(&self, row: Row) -> Option<&[u16]>
        ensures { MatchOption result (is_row (meaning_of self.now) row ≡ false) (λ r. (is_row (meaning_of self.now) row ≡ true) × (r.now ≡ told_of self.now row)) }
    {
        match row {
            Row::Check(k) => self.checks.get(k as usize),
            Row::Generator(k) => self.generators.get(k as usize),
        }
    }
}

impl Code for Listed {
    ghost meaning = { meaning_of };

    ghost told = { told_of };

    ghost sound = { sound_of };

    ghost tells = { tells_of };

    fn qubits(&self) -> u16 {
        self.sides.len() as u16
    }

    fn checks(&self) -> u16 {
        self.checks.len() as u16
    }

    fn generators(&self) -> u16 {
        self.generators.len() as u16
    }

    fn side(&self, qubit: u16) -> Option<Side> {
        let side = self.sides.get(qubit as usize)?;
        Side::try_from(*side).ok()
    }

    fn row_len(&self, row: Row) -> Option<u16> {
        let qubits = self.row(row)?;
        Some(qubits.len() as u16)
    }

    fn row_qubit(&self, row: Row, k: u16) -> Option<u16> {
        self.row(row)?.get(k as usize).copied()
    }
}

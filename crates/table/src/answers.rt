//! What a table answers.
ghost use Rattle.std.specs.Prelude.{◌≡◌, length};
ghost use Rattle.meaning.specs.Meaning.{qubits};
ghost use Rattle.meaning.specs.Telling.{side};
ghost use Rattle.table.specs.Columns.{holders_of};
ghost use Rattle.table.specs.OfTable.{meaning_of, told_of};

use super::Table;
use terms::row::{Row, Side};

impl Table {
    /// How many qubits the code has.
    pub fn qubits(&self) -> u16
        ensures { result ≡ qubits (meaning_of self.now) }
    {
        self.sides.len() as u16
    }

    /// How many checks the code has.
    pub fn checks(&self) -> u16
        ensures { result ≡ length (meaning_of self.now).checks }
    {
        self.checks.rows.len() as u16
    }

    /// How many generators the code has.
    pub fn generators(&self) -> u16
        ensures { result ≡ length (meaning_of self.now).generators }
    {
        self.generators.rows.len() as u16
    }

    /// The side of a qubit; none where there is no such qubit.
    pub fn side(&self, qubit: u16) -> Option<Side>
        ensures { result ≡ side (meaning_of self.now) qubit }
    {
        self.sides.get(qubit as usize).copied()
    }

    /// The qubits of a row, in the order told; none where there is no such row.
    pub fn row(&self, row: Row) -> &[u16]
        ensures { result.now ≡ told_of self.now row }
    {
        match row {
            Row::Check(k) => self.checks.rows.row(k as usize),
            Row::Generator(k) => self.generators.rows.row(k as usize),
        }
    }

    /// The checks that hold a qubit, rising.
    pub fn checks_at(&self, qubit: u16) -> &[u16]
        ensures { result.now ≡ holders_of (meaning_of self.now).checks qubit }
    {
        self.checks.at.row(qubit as usize)
    }

    /// The generators that hold a qubit, rising.
    pub fn generators_at(&self, qubit: u16) -> &[u16]
        ensures { result.now ≡ holders_of (meaning_of self.now).generators qubit }
    {
        self.generators.at.row(qubit as usize)
    }
}

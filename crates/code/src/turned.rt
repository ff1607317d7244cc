//! A code with its checks and generators exchanged.
ghost use Rattle.terms.specs.Rows.{exchanged};
ghost use Rattle.meaning.specs.Meaning.{turned};
ghost use Rattle.meaning.proofs.Turned.{turned_sound, turned_tells};

use crate::Code;
use std::alloc::AllocError;
use terms::row::{Row, Side};

/// Any code with checks and generators exchanged: it serves errors of the other type.
#[derive(Drop)]
pub struct Turned<C>(pub C);

impl<C: Code> Code for Turned<C> {
    ghost meaning = { λ t. turned (C.Code.meaning t.0) };

    ghost told = { λ t r. C.Code.told t.0 (exchanged r) };

    ghost sound = { λ t. turned_sound (C.Code.meaning t.0) (C.Code.sound t.0) };

    ghost tells = { λ t. turned_tells (C.Code.meaning t.0) (C.Code.told t.0) (C.Code.tells t.0) };

    fn qubits(&self) -> u16 {
        self.0.qubits()
    }

    fn checks(&self) -> u16 {
        self.0.generators()
    }

    fn generators(&self) -> u16 {
        self.0.checks()
    }

    fn side(&self, qubit: u16) -> Option<Side> {
        self.0.side(qubit)
    }

    fn row_len(&self, row: Row) -> Option<u16> {
        self.0.row_len(row.exchanged())
    }

    fn row_qubit(&self, row: Row, k: u16) -> Option<u16> {
        self.0.row_qubit(row.exchanged(), k)
    }

    fn tell_row(&self, row: Row, list: &mut Vec<u16>) -> Result<(), AllocError> {
        self.0.tell_row(row.exchanged(), list)
    }
}

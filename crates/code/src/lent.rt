//! A code that is lent: a reference to a code answers as the code does.
use crate::Code;
use std::alloc::AllocError;
use terms::row::{Row, Side};

impl<'c, C: Code> Code for &'c C {
    ghost meaning = { λ c. C.Code.meaning c.now };

    ghost told = { λ c. C.Code.told c.now };

    ghost sound = { λ c. C.Code.sound c.now };

    ghost tells = { λ c. C.Code.tells c.now };

    fn qubits(&self) -> u16 {
        (**self).qubits()
    }

    fn checks(&self) -> u16 {
        (**self).checks()
    }

    fn generators(&self) -> u16 {
        (**self).generators()
    }

    fn side(&self, qubit: u16) -> Option<Side> {
        (**self).side(qubit)
    }

    fn row_len(&self, row: Row) -> Option<u16> {
        (**self).row_len(row)
    }

    fn row_qubit(&self, row: Row, k: u16) -> Option<u16> {
        (**self).row_qubit(row, k)
    }

    fn tell_row(&self, row: Row, list: &mut Vec<u16>) -> Result<(), AllocError> {
        (**self).tell_row(row, list)
    }
}

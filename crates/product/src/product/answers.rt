//! What a product code answers.
ghost use Rattle.std.specs.Prelude.{◌≡◌, ◌<◌};
ghost use Rattle.meaning.specs.Product.{check_told, generator_told};
ghost use Rattle.product.specs.OfProduct.{seed, meaning_of, told_of};
ghost use Rattle.product.specs.Parts.{parts_told, Splits};
ghost use Rattle.product.specs.Stands.{product_sound_of, product_tells_of};

use super::Product;
use crate::part::{Part, Parts};
use code::Code;
use std::alloc::AllocError;
use terms::row::{Row, Side};

impl Code for Product {
    ghost meaning = { meaning_of };

    ghost told = { told_of };

    ghost sound = { product_sound_of };

    ghost tells = { product_tells_of };

    fn qubits(&self) -> u16 {
        self.columns * self.columns + self.rows * self.rows
    }

    fn checks(&self) -> u16 {
        self.columns * self.rows
    }

    fn generators(&self) -> u16 {
        self.rows * self.columns
    }

    fn side(&self, qubit: u16) -> Option<Side> {
        let pairs = self.columns * self.columns;
        if qubit < pairs {
            Some(Side::Zero)
        } else if qubit < pairs + self.rows * self.rows {
            Some(Side::One)
        } else {
            None
        }
    }

    fn row_len(&self, row: Row) -> Option<u16> {
        Some(self.parts(row)?.len())
    }

    fn row_qubit(&self, row: Row, k: u16) -> Option<u16> {
        self.parts(row)?.qubit(k)
    }

    fn tell_row(&self, row: Row, list: &mut Vec<u16>) -> Result<(), AllocError> {
        match self.parts(row) {
            Some(parts) => parts.tell(list),
            None => Ok(()),
        }
    }
}

impl Product {
    /// The two parts of a row: its qubits on side 0, and then those on side 1.
    fn parts(&self, row: Row) -> Option<Parts>
        ensures { Splits (meaning_of self.now) (told_of self.now) row result }
    {
        let rows = self.rows;
        let columns = self.columns;
        match row {
            Row::Check(k) => (k < columns * rows).then(|| self.check_parts(k / rows, k % rows)),
            Row::Generator(k) => {
                (k < rows * columns).then(|| self.generator_parts(k / columns, k % columns))
            }
        }
    }

    // Kept: one function for both kinds would take where the two parts begin and how they step, four numbers that each call would have to compute.
    /// Check (b, a): the (b, b') with a one in row a and column b', and the (a', a) with a one in row a' and column b.
    fn check_parts(&self, b: u16, a: u16) -> Parts
        requires { (b < self.now.columns) × (a < self.now.rows) }
        ensures { parts_told result ≡ check_told self.now.rows self.now.columns (seed self.now) b a }
    {
        let columns = self.columns;
        let front = Part::new(self.row_words[a as usize], b * columns, 1);
        let back = Part::new(
            self.column_words[b as usize],
            columns * columns + a,
            self.rows,
        );
        Parts::new(front, back)
    }

    /// Generator (a, b): the (b', b) with a one in row a and column b', and the (a, a') with a one in row a' and column b.
    fn generator_parts(&self, a: u16, b: u16) -> Parts
        requires { (a < self.now.rows) × (b < self.now.columns) }
        ensures { parts_told result ≡ generator_told self.now.rows self.now.columns (seed self.now) a b }
    {
        let columns = self.columns;
        let front = Part::new(self.row_words[a as usize], b, columns);
        let back = Part::new(
            self.column_words[b as usize],
            columns * columns + a * self.rows,
            1,
        );
        Parts::new(front, back)
    }
}

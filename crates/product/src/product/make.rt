//! Making a product code from a seed.
ghost use Rattle.std.specs.Prelude.{◌≡◌, ℕ, ◌<◌, false, ◌&&◌, ◌||◌, ◌==◌};
ghost use Rattle.terms.specs.Answering.{Answers};
ghost use Rattle.product.specs.OfProduct.{ProductOf};
ghost use Rattle.product.specs.Seed.{some_outside, marked, fault_of};
ghost use Rattle.product.specs.Words.{one_at};

use super::Product;
use crate::place::Place;
use crate::seed::Seed;
use terms::refusal::Refusal;

impl Product {
    /// The product code of a seed of 1 to 32 rows and as many columns.
    pub fn new(seed: Seed) -> Result<Product, Refusal>
        ensures { Answers result (fault_of seed.entry) (ProductOf seed.entry) }
    {
        seed.check()?;
        let (row_words, column_words) = words(seed.ones);
        Ok(Product {
            rows: seed.rows,
            columns: seed.columns,
            row_words,
            column_words,
        })
    }
}

/// Puts a one at a place of a line.
// Kept: a function on the array of words, called twice; a type around the array would stand in each invariant and clause that reads the words.
fn mark(words: &mut [u32; 32], line: u16, place: u16)
    requires { (line < 32) × (place < 32) }
    ensures { (a b : ℕ) → one_at words.new a b ≡ ((a == line && b == place) || one_at words.old a b) }
{
    words[line as usize] |= 1 << place;
}

/// The rows and the columns of the seed, as words.
fn words(ones: &[Place]) -> ([u32; 32], [u32; 32])
    requires { some_outside 32 32 ones.now ≡ false }
    ensures rows { (a b : ℕ) → one_at result.0 a b ≡ marked a b ones.now }
    ensures columns { (a b : ℕ) → one_at result.1 b a ≡ marked a b ones.now }
{
    let mut rows = [0; 32];
    let mut columns = [0; 32];
    for p in ones {
        mark(&mut rows, p.row, p.column);
        mark(&mut columns, p.column, p.row);
    }
    (rows, columns)
}

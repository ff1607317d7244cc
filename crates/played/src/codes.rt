//! The codes that the numbers of a line give.
ghost use Rattle.std.specs.Prelude.{◌≡◌, map, IfOk, OnOk, min};
ghost use Rattle.played.specs.Making.{AnswersUnlessMemory};
ghost use Rattle.meaning.specs.Product.{product_code, product_told};
ghost use Rattle.meaning.specs.Listed.{listed_code, listed_told};
ghost use Rattle.product.specs.OfProduct.{meaning_of as product_meaning, told_of as product_tells};
ghost use Rattle.product.specs.Seed.{seed_fault, seed_of};
ghost use Rattle.listed.specs.Fault.{listed_fault};
ghost use Rattle.listed.specs.OfListed.{sides_of, meaning_of as listed_meaning, told_of as listed_tells};
ghost use Rattle.played.specs.Reading.{place_of, seed_rows, seed_columns, seed_places, counted, after_counted, listed_sides, listed_checks, listed_generators, counted_rows, after_counted_rows};

use crate::numbers::{Numbers, shortened};
use listed::Listed;
use product::place::Place;
use product::product::Product;
use product::seed::Seed;
use rows::Rows;
use std::alloc::{AllocError, Global};
use terms::refusal::Refusal;

/// The product code of a seed: its numbers of rows and columns, and then row and column of each of its ones.
pub fn product_in(heap: Global, numbers: &[u32]) -> Result<Product, Refusal>
    ensures { let l = numbers.now in AnswersUnlessMemory result (seed_fault (seed_rows l) (seed_columns l) (seed_places l)) (λ p. (product_meaning p ≡ product_code (seed_rows l) (seed_columns l) (seed_of (seed_rows l) (seed_columns l) (seed_places l))) × (product_tells p ≡ product_told (seed_rows l) (seed_columns l) (seed_of (seed_rows l) (seed_columns l) (seed_places l)))) }
{
    let mut rest = Numbers::new(numbers);
    let rows = rest.short();
    let columns = rest.short();
    let places = places_of(heap, rest.pairs())?;
    Product::new(Seed {
        rows,
        columns,
        ones: places.as_slice(),
    })
}

// Kept: as `placed` of `naming`, which reads numbers that are no larger than a place's. One function would have a type parameter and a closure with
// a `requires` and a clause on what it answers, where each has one expression.
fn places_of(heap: Global, pairs: &[[u32; 2]]) -> Result<Vec<Place>, AllocError>
    ensures { IfOk result (λ v. v.items ≡ map place_of pairs.now) }
{
    pairs
        .iter()
        .map(|[row, column]| Place {
            row: shortened(*row),
            column: shortened(*column),
        })
        .collect(heap)
}

/// The code of listed tables: a count and the sides, a count and the checks, a count and the generators, each row as its length and its qubits.
pub fn listed_in(heap: Global, numbers: &[u32]) -> Result<Listed, Refusal>
    ensures { let l = numbers.now in AnswersUnlessMemory result (listed_fault (listed_checks l) (listed_generators l) (listed_sides l)) (λ c. (listed_meaning c ≡ listed_code (listed_checks l) (listed_generators l) (sides_of (listed_sides l))) × (listed_tells c ≡ listed_told (listed_checks l) (listed_generators l))) }
{
    let mut rest = Numbers::new(numbers);
    let sides = sides_in(heap, &mut rest)?;
    let checks = rows_in(heap, &mut rest)?;
    let generators = rows_in(heap, &mut rest)?;
    Listed::new(sides, checks, generators)
}

/// A count and so many sides as bytes; what is larger than any becomes the largest.
fn sides_in(heap: Global, numbers: &mut Numbers<'_>) -> Result<Vec<u8>, AllocError>
    ensures sides { IfOk result (λ v. v.items ≡ map (λ side. min side 255) (counted numbers.old)) }
    ensures rest { OnOk result (numbers.new ≡ after_counted numbers.old) }
{
    // Kept: a loop, as in `Numbers::list`, and no call of it: a list of numbers beside the bytes would take three times the memory.
    let count = numbers.next();
    let mut sides = Vec::new(heap);
    for _read in 0..count {
        sides.push(numbers.byte())?;
    }
    Ok(sides)
}

/// A count and so many rows.
fn rows_in(heap: Global, numbers: &mut Numbers<'_>) -> Result<Rows, AllocError>
    ensures rows { IfOk result (λ r. r ≡ counted_rows numbers.old) }
    ensures rest { OnOk result (numbers.new ≡ after_counted_rows numbers.old) }
{
    // Kept: a loop, as in `Numbers::list`: a row is as long as its own count says.
    let count = numbers.next();
    let mut rows = Rows::new(heap);
    for _read in 0..count {
        let row = numbers.list(heap)?;
        rows.push(row.as_slice())?;
    }
    Ok(rows)
}

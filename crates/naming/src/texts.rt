//! The whole list of names, and the line for a refusal.
ghost use Rattle.std.specs.Prelude.{◌≡◌, ◌*◌, ◌<◌, ◌≤◌, length, map, IfOk, string_bytes, Some};
ghost use Rattle.terms.specs.Answering.{AnswersIfMemory};
ghost use Rattle.meaning.specs.Product.{product_told};
ghost use Rattle.product.specs.Seed.{fault_of, matrix_of};
ghost use Rattle.naming.specs.Texts.{names_text, refusal_text, place_of, places_of, count_fault};

use crate::kind::Kind;
use crate::lines::{Qubits, Rows};
use code::Code;
use product::place::Place;
use product::product::Product;
use product::seed::Seed;
use std::alloc::{AllocError, Global};
use std::fmt;
use terms::refusal::Refusal;

/// The line that is printed for a refusal: its number, where it has one, and its meaning.
pub fn refusal_line(heap: Global, refusal: Refusal) -> Result<String, AllocError>
    ensures { IfOk result (λ s. string_bytes s ≡ refusal_text refusal) }
{
    format!(in heap; "{refusal}\n")
}

/// The list of names of the product code of a seed.
pub fn names(heap: Global, seed: Seed) -> Result<String, Refusal>
    ensures { AnswersIfMemory result (fault_of seed.entry) (λ s. string_bytes s ≡ names_text seed.entry.rows seed.entry.columns (product_told seed.entry.rows seed.entry.columns (matrix_of seed.entry))) }
{
    let product = Product::new(seed)?;
    let grid = Grid {
        code: &product,
        seed,
    };
    Ok(format!(in heap; "{grid}")?)
}

/// All names of a code over the grid of a seed.
#[derive(Drop)]
struct Grid<'c, C: Code> {
    code: &'c C,
    seed: Seed<'c>,
    ghost some_rows: { 1 ≤ seed.rows },
    ghost few_rows: { seed.rows ≤ 32 },
    ghost some_columns: { 1 ≤ seed.columns },
    ghost few_columns: { seed.columns ≤ 32 },
    ghost checks: { length (C.meaning code.now).checks ≡ seed.columns * seed.rows },
    ghost generators: { length (C.meaning code.now).generators ≡ seed.rows * seed.columns },
}

impl<C: Code> fmt::Display for Grid<'_, C> {
    ghost output = { λ n. Some (names_text n.seed.rows n.seed.columns (C.Code.told n.code.now)) };

    fn fmt<W: fmt::Write>(&self, f: &mut fmt::Formatter<W>) -> fmt::Result {
        let Seed { rows, columns, .. } = self.seed;
        let pairs = columns * columns;
        let checks = columns * rows;
        let generators = rows * columns;
        let qubits = pairs + rows * rows;
        let front = Qubits {
            letter: "b",
            first: 0,
            width: columns,
        };
        let back = Qubits {
            letter: "a",
            first: pairs,
            width: rows,
        };
        let check_rows = Rows {
            code: self.code,
            kind: Kind::Checks,
            line: rows,
            count: checks,
        };
        let generator_rows = Rows {
            code: self.code,
            kind: Kind::Generators,
            line: columns,
            count: generators,
        };
        write!(f, "{front}{back}{check_rows}{generator_rows}")?;
        write!(
            f,
            "printed {qubits} qubits, {checks} checks, {generators} generators\n"
        )
    }
}

/// The places among the arguments of the program: each two numbers after the first two, which are the sizes of the seed.
pub fn places_in(heap: Global, numbers: &[u16]) -> Result<Vec<Place>, Refusal>
    ensures { AnswersIfMemory result (count_fault numbers.now) (λ v. v.items ≡ places_of numbers.now) }
{
    let [_, _, rest @ ..] = numbers else {
        return Err(Refusal::WrongEnd);
    };
    let (pairs, []) = rest.as_chunks::<2>() else {
        return Err(Refusal::OutsideLimits);
    };
    let places = placed(heap, pairs)?;
    Ok(places)
}

fn placed(heap: Global, pairs: &[[u16; 2]]) -> Result<Vec<Place>, AllocError>
    ensures { IfOk result (λ v. v.items ≡ map place_of pairs.now) }
{
    pairs
        .iter()
        .map(|[row, column]| Place {
            row: *row,
            column: *column,
        })
        .collect(heap)
}

//! A product code.
ghost use Rattle.std.specs.Prelude.{◌≡◌, ℕ, ◌<◌, ◌≤◌, true};
ghost use Rattle.product.specs.Words.{one_at};

mod answers;
mod make;

/// The product code of a seed with `rows` rows and `columns` columns. The seed is kept by its rows and by its columns, each as a word whose
/// bits are the entries, the lowest bit first.
#[derive(Clone, Copy)]
pub struct Product {
    rows: u16,
    columns: u16,
    // Kept: the seed by its rows and by its columns, each as words (docs/architecture.md, program forms).
    row_words: [u32; 32],
    column_words: [u32; 32],
    ghost some_rows: { 1 ≤ rows },
    ghost few_rows: { rows ≤ 32 },
    ghost some_columns: { 1 ≤ columns },
    ghost few_columns: { columns ≤ 32 },
    ghost crossed: { (a b : ℕ) → one_at row_words a b ≡ one_at column_words b a },
    ghost inside: { (a b : ℕ) → one_at row_words a b ≡ true → (a < rows) × (b < columns) },
}

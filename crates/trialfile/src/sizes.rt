//! The sizes of a seed.
ghost use Rattle.std.specs.Prelude.{◌≤◌};

mod counts;

/// The numbers of rows and columns of a seed, 1 to 32 each.
#[derive(Clone, Copy)]
pub struct Sizes {
    pub rows: u16,
    pub columns: u16,
    ghost some_rows: { 1 ≤ rows },
    ghost few_rows: { rows ≤ 32 },
    ghost some_columns: { 1 ≤ columns },
    ghost few_columns: { columns ≤ 32 },
}

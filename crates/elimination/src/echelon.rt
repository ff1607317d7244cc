//! A table of rows in echelon form: the row of column j is in use if its coefficient at j is not zero. It is one then, and what stands before it is not read.
//! A row has its right side first, and then a coefficient for each column.
ghost use Rattle.std.specs.Prelude.{◌≡◌, ◌+◌, ◌<◌, ◌≤◌, length, vec_len, unwrap_or, IfOk, IfSome};
ghost use Rattle.linear.specs.Basis.{empty, slack, least};
ghost use Rattle.elimination.specs.Table.{basis_of, row_of, is_free, Reduced, AddedFrom};
ghost use Rattle.elimination.specs.Inserted.{Inserted};
ghost use Rattle.elimination.specs.declared.echelon.TheConstants.{MOST, CELLS};

use std::alloc::{AllocError, Global};
use values::{Value, add_times, clear, dot, scale, zeros};

/// The most columns.
pub(crate) const MOST: usize = 256;

/// The length of a row of a table of that many columns.
pub(crate) const STRIDE: usize = MOST + 1;

const CELLS: usize = MOST * STRIDE;

/// How many coefficients of one byte a vector instruction adds.
const LANES: usize = 16;

/// With fewer places than this behind a column an addition begins right behind it.
const FEW: usize = 4 * LANES;

/// A table of at most 256 columns, in memory for so many.
#[derive(Drop)]
pub(crate) struct Echelon<T> {
    pub(crate) width: usize,
    // Kept: rows end to end in memory for the most columns, since no call but `new` may want memory. A `Vec` of rows, each as long as it is used, would
    // be 256 blocks, each cleared and resized in `begin`, with an arm for want of memory that cannot come, and facts on the length and the room of
    // each, where there is one fact.
    /// The rows, end to end.
    cells: Vec<T>,
    ghost few: { width ≤ MOST },
    ghost room: { vec_len cells ≡ CELLS },
}

/// What came of a row.
#[derive(Clone, Copy, Debug, PartialEq, Eq)]
pub(crate) enum Added {
    Grown,
    Known,
    Clash,
}

impl<T: Value> Echelon<T> {
    /// The table of no columns.
    pub(crate) fn new(heap: Global) -> Result<Echelon<T>, AllocError>
        ensures { IfOk result (λ e. e.width ≡ 0) }
    {
        Ok(Echelon {
            width: 0,
            cells: zeros(heap, CELLS)?,
        })
    }

    /// Takes this many columns, and no row.
    pub(crate) fn begin(&mut self, width: usize)
        requires { width ≤ MOST }
        ensures width { self.new.width ≡ width }
        ensures empty { basis_of T.Value.field width self.new.cells.items ≡ empty width }
    {
        clear(&mut self.cells[0..width * (width + 1)]);
        self.width = width;
    }

    /// The row of a column.
    fn row(&self, j: usize) -> &[T]
        requires { j < self.now.width }
        ensures long { length result.now ≡ self.now.width + 1 }
        ensures cells { result.now ≡ row_of self.now.width self.now.cells.items j }
    {
        let stride = self.width + 1;
        &self.cells[j * stride..j * stride + stride]
    }

    /// Whether a column has no row.
    fn is_free(&self, j: usize) -> bool
        requires { j < self.now.width }
        ensures { result ≡ is_free T.Value.field self.now.width self.now.cells.items j }
    {
        self.row(j)[j + 1].is_zero()
    }

    /// Takes rows of the table off `row`, from the first column on, up to a column where the row has a coefficient and the table no row. Answers that column.
    pub(crate) fn reduce(&self, row: &mut [T]) -> Option<usize>
        requires { length row.old ≡ self.now.width + 1 }
        ensures below { IfSome result (λ j. j < self.now.width) }
        ensures reduced { Reduced T.Value.field self.now.width self.now.cells.items row.old (unwrap_or result self.now.width) row.new }
    {
        // Kept: by number, for each turn changes what is left of the row, which an iterator over it would lend.
        for j in 0..self.width {
            let c = row[j + 1];
            if !c.is_zero() {
                if self.is_free(j) {
                    return Some(j);
                }
                self.add_row(j, c.negated(), row);
            }
        }
        None
    }

    /// Where the addition of the row of a column begins. What stands up to the column is not read again, so with many places behind it the addition
    /// may begin before them, where whole vectors fit; with few of them that would cost more than it saves (docs/performance.md).
    fn start(&self, j: usize) -> usize
        requires { j < self.now.width }
        ensures { (1 ≤ result) × (result ≤ j + 2) }
    {
        let behind = self.width - j - 1;
        if behind < FEW {
            return j + 2;
        }
        (j + 2)
            .saturating_sub((LANES - behind % LANES) % LANES)
            .max(1)
    }

    /// Adds `k` times the row of a column, on the right side and behind the column.
    fn add_row(&self, j: usize, k: T, row: &mut [T])
        requires column { j < self.now.width }
        requires long { length row.old ≡ self.now.width + 1 }
        ensures { AddedFrom T.Value.field j k (row_of self.now.width self.now.cells.items j) row.old row.new }
    {
        let pivot = self.row(j);
        let start = self.start(j);
        row[0] = row[0].plus(k.times(pivot[0]));
        add_times(&mut row[start..], k, &pivot[start..]);
    }

    /// Takes a row into the table. The row is used up.
    pub(crate) fn insert(&mut self, row: &mut [T]) -> Added
        requires { length row.old ≡ self.old.width + 1 }
        ensures width { self.new.width ≡ self.old.width }
        ensures inserted { Inserted T.Value.field self.old.width self.old.cells.items row.old result self.new.cells.items }
    {
        let Some(j) = self.reduce(row) else {
            return if row[0].is_zero() {
                Added::Known
            } else {
                Added::Clash
            };
        };
        let c = row[j + 1];
        scale(row, c.inverse());
        let stride = self.width + 1;
        self.cells[j * stride..j * stride + stride].copy_from_slice(row);
        Added::Grown
    }

    /// How many columns have no row.
    pub(crate) fn slack(&self) -> usize
        ensures counted { result ≡ slack (basis_of T.Value.field self.now.width self.now.cells.items) }
        ensures few { result ≤ self.now.width }
    {
        (0..self.width).filter(|j| self.is_free(*j)).count()
    }

    /// Writes the solution with every free unknown zero, column by column from the last.
    pub(crate) fn least(&self, out: &mut [T])
        requires { length out.old ≡ self.now.width }
        ensures { out.new ≡ least T.Value.field (basis_of T.Value.field self.now.width self.now.cells.items) }
    {
        // Kept: by number, for what is written at j is made of what stands behind it.
        for j in (0..self.width).rev() {
            out[j] = if self.is_free(j) {
                T::zero()
            } else {
                let pivot = self.row(j);
                let sum = dot(&pivot[j + 2..], &out[j + 1..]);
                pivot[0].plus(sum.negated())
            };
        }
    }
}

//! A seed as it is given.
ghost use Rattle.std.specs.Prelude.{◌≡◌, None as Nothing};
ghost use Rattle.terms.specs.Answering.{checked};
ghost use Rattle.product.specs.Seed.{size_outside, outside, some_outside, rising_from, fault_of};

use crate::place::Place;
use terms::refusal::Refusal;

/// The numbers of rows and columns of a seed, and the places of its ones, rising by row and then by column.
#[derive(Clone, Copy)]
pub struct Seed<'a> {
    pub rows: u16,
    pub columns: u16,
    pub ones: &'a [Place],
}

impl Seed<'_> {
    /// Refuses a seed of no row or column or more than 32, or with ones that lie outside or do not rise.
    pub(crate) fn check(&self) -> Result<(), Refusal>
        ensures { result ≡ checked (fault_of self.now) }
    {
        if size_outside(self.rows) || size_outside(self.columns) || self.some_outside() {
            return Err(Refusal::OutsideLimits);
        }
        if !self.rises() {
            return Err(Refusal::NotRising);
        }
        Ok(())
    }

    /// Whether a one lies outside the rows and columns.
    fn some_outside(&self) -> bool
        ensures { result ≡ some_outside self.now.rows self.now.columns self.now.ones.now }
    {
        self.ones.iter().any(|p| self.lies_outside(*p))
    }

    fn lies_outside(&self, p: Place) -> bool
        ensures { result ≡ outside self.now.rows self.now.columns p }
    {
        p.row >= self.rows || p.column >= self.columns
    }

    /// Whether each one comes after the one before it.
    fn rises(&self) -> bool
        ensures { result ≡ rising_from Nothing self.now.ones.now }
    {
        self.ones.is_sorted_by(|p, q| p < q)
    }
}

fn size_outside(k: u16) -> bool
    ensures { result ≡ size_outside k }
{
    !(1..=32).contains(&k)
}

//! What a trial file says.
ghost use Rattle.std.specs.Prelude.{◌≡◌};

use crate::sizes::Sizes;
use product::place::Place;
use product::seed::Seed;

/// A seed by its sizes and its ones, the lost qubits, the odd checks, and the switches of the run.
#[derive(Drop)]
pub struct TrialFile {
    pub sizes: Sizes,
    pub ones: Vec<Place>,
    pub lost: Vec<u16>,
    pub odd: Vec<u16>,
    pub switches: u16,
}

impl TrialFile {
    /// The seed, lent for the making of its product code.
    pub fn seed(&self) -> Seed
        ensures rows { result.rows ≡ self.now.sizes.rows }
        ensures columns { result.columns ≡ self.now.sizes.columns }
        ensures ones { result.ones.now ≡ self.now.ones.items }
    {
        Seed {
            rows: self.sizes.rows,
            columns: self.sizes.columns,
            ones: &self.ones,
        }
    }
}

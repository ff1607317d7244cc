//! Stating a system: its unknowns, and one check after another.
ghost use Rattle.std.specs.Prelude.{[], ◌∷◌, ◌++◌, replicate, None};
ghost use Rattle.terms.specs.Answering.{Answers, AnswersIfMemory};
ghost use Rattle.elimination.specs.Holds.{Holds, WhereHeld};
ghost use Rattle.elimination.specs.Calls.{too_many, outside, KeptIfRefused, more, check};

use super::Elimination;
use super::echelon::{Added, Echelon, MOST, STRIDE};
use std::alloc::Global;
use terms::refusal::Refusal;
use values::{Value, clear, zeros};

impl<T: Value> Elimination<T> {
    /// Room for 256 unknowns, with the system of no unknowns and no checks.
    pub fn new(heap: Global) -> Result<Elimination<T>, Refusal>
        ensures { AnswersIfMemory result None (λ e. Holds T.Value.field e 0 [] []) }
    {
        Ok(Elimination {
            echelon: Echelon::new(heap)?,
            contradicts: false,
            row: zeros(heap, STRIDE)?,
            least: zeros(heap, MOST)?,
        })
    }

    /// Starts a system of this many unknowns, with no checks. More than 256 are refused.
    pub fn begin(&mut self, unknowns: u16) -> Result<(), Refusal>
        ensures begun { Answers result (too_many unknowns) (λ _. Holds T.Value.field self.new unknowns [] (replicate unknowns T.Value.field.zer)) }
        ensures kept { KeptIfRefused result self.old self.new }
    {
        let n = usize::from(unknowns);
        if n > MOST {
            return Err(Refusal::TooManyUnknowns);
        }
        self.echelon.begin(n);
        clear(&mut self.row[0..n + 1]);
        self.contradicts = false;
        Ok(())
    }

    /// Adds a coefficient to the check that is being written, at an unknown by its number: coefficients put at one place add up.
    pub fn put(&mut self, place: u16, coefficient: T) -> Result<(), Refusal>
        ensures put { WhereHeld T.Value.field self.old (λ n rows written. Answers result (outside n place) (λ _. Holds T.Value.field self.new n rows (more T.Value.field written place coefficient))) }
        ensures kept { KeptIfRefused result self.old self.new }
    {
        let place = usize::from(place);
        if place >= self.echelon.width {
            return Err(Refusal::QubitTooLarge);
        }
        let at = self.echelon.width - place;
        self.row[at] = self.row[at].plus(coefficient);
        Ok(())
    }

    /// Adds the check that was written, with its right side. The next check begins with no coefficients.
    pub fn add(&mut self, right: T)
        ensures { WhereHeld T.Value.field self.old (λ n rows written. Holds T.Value.field self.new n (rows ++ check written right ∷ []) (replicate n T.Value.field.zer)) }
    {
        let row = &mut self.row[0..self.echelon.width + 1];
        row[0] = right;
        self.contradicts |= self.echelon.insert(row) == Added::Clash;
        clear(row);
    }
}

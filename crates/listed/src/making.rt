//! Making a listed code.
ghost use Rattle.std.specs.Prelude.{◌≡◌};
ghost use Rattle.terms.specs.Answering.{Answers};
ghost use Rattle.meaning.specs.Listed.{listed_code, listed_told};
ghost use Rattle.listed.specs.Fault.{listed_fault};
ghost use Rattle.listed.specs.OfListed.{sides_of, meaning_of, told_of};

use super::Listed;
use crate::faults::Tables;
use rows::Rows;
use terms::refusal::Refusal;

impl Listed {
    /// The code of the given tables, which it takes over, or the first fault of the tables. Allocates nothing.
    pub fn new(sides: Vec<u8>, checks: Rows, generators: Rows) -> Result<Listed, Refusal>
        ensures { Answers result (listed_fault checks generators sides.items) (λ c. (meaning_of c ≡ listed_code checks generators (sides_of sides.items)) × (told_of c ≡ listed_told checks generators)) }
    {
        let tables = Tables {
            checks: &checks,
            generators: &generators,
            sides: &sides,
        };
        tables.check()?;
        Ok(Listed {
            checks,
            generators,
            sides,
        })
    }
}

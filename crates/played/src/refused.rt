//! A refusal as the programs print it.
ghost use Rattle.std.specs.Prelude.{◌≡◌, Some, IfOk, string_bytes, ◌≢◌};
ghost use Rattle.terms.specs.declared.refusal.Refusal.TheVariants.{NoMemory};
ghost use Rattle.terms.specs.Refusals.{number};
ghost use Rattle.played.specs.Printing.{refused_text};

use std::alloc::{AllocError, Global};
use std::fmt;
use terms::refusal::Refusal;

/// A refusal by its number alone; want of memory, which has none, in words.
#[derive(Drop)]
pub struct Refused(pub Refusal);

impl fmt::Display for Refused {
    ghost output = { λ r. Some (refused_text (number r.0)) };

    fn fmt<W: fmt::Write>(&self, f: &mut fmt::Formatter<W>) -> fmt::Result {
        match self.0.number() {
            Some(number) => write!(f, "refused {number}"),
            None => write!(f, "no memory"),
        }
    }
}

impl Refused {
    /// The text of a refusal of what was asked. Want of memory is no answer, and ends what a program does.
    pub fn text(self, heap: Global) -> Result<String, AllocError>
        ensures { IfOk result (λ s. (self.0 ≢ NoMemory) × (string_bytes s ≡ refused_text (number self.0))) }
    {
        match self.0 {
            Refusal::NoMemory => Err(AllocError),
            _ => format!(in heap; "{self}"),
        }
    }
}

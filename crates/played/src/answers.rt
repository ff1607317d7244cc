//! What is told of a code, as the programs print it.
ghost use Rattle.std.specs.Prelude.{Some};
ghost use Rattle.played.specs.Printing.{sizes_text, found_text};

use std::fmt;

/// The three sizes of a code that was made.
#[derive(Drop)]
pub struct Sizes {
    pub qubits: u16,
    pub checks: u16,
    pub generators: u16,
}

impl fmt::Display for Sizes {
    ghost output = { λ s. Some (sizes_text s.qubits s.checks s.generators) };

    fn fmt<W: fmt::Write>(&self, f: &mut fmt::Formatter<W>) -> fmt::Result {
        write!(f, "ok {} {} {}", self.qubits, self.checks, self.generators)
    }
}

/// The number that a question found, if any.
#[derive(Drop)]
pub struct Found(pub Option<u16>);

impl fmt::Display for Found {
    ghost output = { λ n. Some (found_text n.0) };

    fn fmt<W: fmt::Write>(&self, f: &mut fmt::Formatter<W>) -> fmt::Result {
        match self.0 {
            Some(number) => write!(f, "{number}"),
            None => write!(f, "none"),
        }
    }
}

//! Names in the grid.
ghost use Rattle.std.specs.Prelude.{[], Some};
ghost use Rattle.naming.specs.Lines.{name};

use std::fmt;

/// A name in the grid beside the stored number.
#[derive(Drop)]
pub struct Name<'a> {
    pub word: &'a str,
    pub x: u16,
    pub y: u16,
    pub number: u16,
}

impl fmt::Display for Name<'_> {
    ghost output = { λ n. Some (name n.word.now n.x n.y n.number []) };

    fn fmt<W: fmt::Write>(&self, f: &mut fmt::Formatter<W>) -> fmt::Result {
        write!(f, "{} {} {} | {}", self.word, self.x, self.y, self.number)
    }
}

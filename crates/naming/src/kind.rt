//! The two kinds of rows.
ghost use Rattle.std.specs.Prelude.{◌≡◌};
ghost use Rattle.naming.specs.Lines.{word, row_of};

use terms::row::Row;

/// A kind of row, for a list of them.
#[derive(Clone, Copy)]
pub(crate) enum Kind {
    Checks,
    Generators,
}

impl Kind {
    /// The word for one row of this kind.
    // Kept: the word itself, and no Display: a name has it in the place where a qubit's name has a letter.
    pub(crate) fn word(self) -> &'static str
        ensures { result.now ≡ word self }
    {
        match self {
            Kind::Checks => "check",
            Kind::Generators => "generator",
        }
    }

    /// The k-th row of this kind.
    pub(crate) fn row(self, k: u16) -> Row
        ensures { result ≡ row_of self k }
    {
        match self {
            Kind::Checks => Row::Check(k),
            Kind::Generators => Row::Generator(k),
        }
    }
}

//! What is awaited at a place of a file.
ghost use Rattle.std.specs.Prelude.{◌≡◌};
ghost use Rattle.tokens.specs.Tokens.{word_of};

/// What is awaited: one of a file's sections, the end after the last of them, or the file as a whole.
#[derive(Clone, Copy, PartialEq, Eq, Debug)]
pub enum Section {
    Seed,
    Ones,
    Erased,
    Odd,
    Stages,
    End,
    File,
}

impl Section {
    /// The word that begins a section, and that names it in a refusal.
    pub fn word(self) -> &'static str
        ensures { result.now ≡ word_of self }
    {
        match self {
            Section::Seed => "seed",
            Section::Ones => "ones",
            Section::Erased => "erased",
            Section::Odd => "odd",
            Section::Stages => "stages",
            Section::End => "end",
            Section::File => "file",
        }
    }
}

/// A place of a file, counted in bytes from 0, and what is awaited there.
#[derive(Clone, Copy, PartialEq, Eq, Debug)]
pub struct Spot {
    pub section: Section,
    pub place: usize,
}

//! The refusals: what is wrong with a call that is turned down.
ghost use Rattle.std.specs.Prelude.{◌≡◌, Some};
ghost use Rattle.terms.specs.Refusals.{number, wording, refusal_words};
ghost use Rattle.terms.specs.declared.refusal.Refusal.TheVariants.{NoMemory};

use std::alloc::{AllocError, AllocFailed};
use std::error::Error;
use std::fmt;

/// Why a call was turned down. Up to `ScratchNotZero` the input is at fault, after that the state; `NoMemory` is neither, and has no number.
#[derive(Clone, Copy, PartialEq, Eq, Debug)]
pub enum Refusal {
    QubitTooLarge,
    CheckTooLarge,
    GeneratorTooLarge,
    PruneListLength,
    BufferTooShort,
    NotRising,
    OutsideLimits,
    LawFails,
    NotAwaited,
    WrongEnd,
    FileTooLong,
    ScratchNotZero,
    NotDangling,
    NothingErased,
    GeneratorNotErased,
    EvenlyNamed,
    SeveralConnecting,
    TooManyUnknowns,
    NoSolution,
    StillErased,
    ShelfEmpty,
    TallyFull,
    WrongSlip,
    NoMemory,
}

impl Refusal {
    /// The refusal's number, as it is printed; want of memory has none.
    pub fn number(self) -> Option<u8>
        ensures { result ≡ number self }
    {
        match self {
            Refusal::QubitTooLarge => Some(1),
            Refusal::CheckTooLarge => Some(2),
            Refusal::GeneratorTooLarge => Some(3),
            Refusal::PruneListLength => Some(4),
            Refusal::BufferTooShort => Some(5),
            Refusal::NotRising => Some(6),
            Refusal::OutsideLimits => Some(7),
            Refusal::LawFails => Some(8),
            Refusal::NotAwaited => Some(9),
            Refusal::WrongEnd => Some(10),
            Refusal::FileTooLong => Some(11),
            Refusal::ScratchNotZero => Some(12),
            Refusal::NotDangling => Some(20),
            Refusal::NothingErased => Some(21),
            Refusal::GeneratorNotErased => Some(22),
            Refusal::EvenlyNamed => Some(23),
            Refusal::SeveralConnecting => Some(24),
            Refusal::TooManyUnknowns => Some(25),
            Refusal::NoSolution => Some(26),
            Refusal::StillErased => Some(27),
            Refusal::ShelfEmpty => Some(28),
            Refusal::TallyFull => Some(29),
            Refusal::WrongSlip => Some(30),
            Refusal::NoMemory => None,
        }
    }

    /// The refusal's meaning in plain words.
    pub fn wording(self) -> &'static str
        ensures { result.now ≡ wording self }
    {
        match self {
            Refusal::QubitTooLarge => "a qubit number is too large",
            Refusal::CheckTooLarge => "a check number is too large",
            Refusal::GeneratorTooLarge => "a generator number is too large",
            Refusal::PruneListLength => "a prune list names no generator or more than 4",
            Refusal::BufferTooShort => "a buffer is too short",
            Refusal::NotRising => "a list does not rise strictly, or a row names a qubit twice",
            Refusal::OutsideLimits =>
                "a size, side, seed place, switch sum or section count is outside its limits",
            Refusal::LawFails => "a check and a generator share an odd number of qubits",
            Refusal::NotAwaited => "something else is awaited here",
            Refusal::WrongEnd => "the input ends early, or goes on after its end",
            Refusal::FileTooLong => "the file is too long",
            Refusal::ScratchNotZero => "a scratch byte in use is not zero",
            Refusal::NotDangling => "the check is closed or does not hold exactly one erased qubit",
            Refusal::NothingErased =>
                "the qubit to solve at is not erased, or nothing is erased to sweep",
            Refusal::GeneratorNotErased => "a qubit of a named generator is not erased",
            Refusal::EvenlyNamed => "the qubit lies in an even number of the listed generators",
            Refusal::SeveralConnecting => "the cluster has two or more connecting checks",
            Refusal::TooManyUnknowns => "there are more than 256 unknowns",
            Refusal::NoSolution => "there is no solution, or the trial is void",
            Refusal::StillErased => "a qubit is still erased",
            Refusal::ShelfEmpty => "the shelf is empty",
            Refusal::TallyFull => "the tally has opened 1000000 trials",
            Refusal::WrongSlip => "the slip is not the trial's, or the tally has no slip out",
            Refusal::NoMemory => "there is not enough memory",
        }
    }
}

/// `refused`, the number where there is one, and the meaning.
impl fmt::Display for Refusal {
    ghost output = { λ f. Some (refusal_words f) };

    fn fmt<W: fmt::Write>(&self, f: &mut fmt::Formatter<W>) -> fmt::Result {
        let wording = self.wording();
        match self.number() {
            Some(number) => write!(f, "refused {number}: {wording}"),
            None => write!(f, "refused: {wording}"),
        }
    }
}

impl Error for Refusal {}

impl From<AllocError> for Refusal {
    ghost from_gives = { λ _ r. r ≡ NoMemory };

    fn from(_error: AllocError) -> Refusal {
        Refusal::NoMemory
    }
}

impl<T: Drop> From<AllocFailed<T>> for Refusal {
    ghost from_gives = { λ _ r. r ≡ NoMemory };

    fn from(_refused: AllocFailed<T>) -> Refusal {
        Refusal::NoMemory
    }
}

/// A write into a `String` fails for want of memory only.
impl From<fmt::Error> for Refusal {
    ghost from_gives = { λ _ r. r ≡ NoMemory };

    fn from(_error: fmt::Error) -> Refusal {
        Refusal::NoMemory
    }
}

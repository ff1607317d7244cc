//! Faults of a file. A fault of the file holds that of its section, and this the token's.
ghost use Rattle.std.specs.Prelude.{◌≡◌};
ghost use Rattle.trialfile.specs.Faults.{spot_in, spot_of, refusal_in, refusal_of};
ghost use Rattle.trialfile.specs.declared.fault.SectionFault.TheVariants.{Token, NoMemory};
ghost use Rattle.trialfile.specs.declared.fault.FileFault.TheVariants.{Section as InSection};

use std::alloc::{AllocError, AllocFailed};
use terms::refusal::Refusal;
use tokens::fault::TokenFault;
use tokens::section::{Section, Spot};

/// The length of the longest file, in bytes.
pub(crate) const LONGEST: usize = 32768;

/// What is wrong in a section: a run that is no token, a token that is not awaited there, the end in place of a token or a token in place of the end,
/// or a number that is too large or does not rise. `NoMemory` is no fault of the file.
#[derive(Clone, Copy, PartialEq, Eq, Debug)]
pub enum SectionFault {
    Token(TokenFault),
    NotAwaited(Spot),
    EndsEarly(Spot),
    GoesOn(Spot),
    OutsideLimits(Spot),
    QubitTooLarge(Spot),
    CheckTooLarge(Spot),
    NotRising(Spot),
    NoMemory,
}

/// Why a file is refused.
#[derive(Clone, Copy, PartialEq, Eq, Debug)]
pub enum FileFault {
    TooLong,
    Section(SectionFault),
}

impl SectionFault {
    /// Where the fault stands, and what was awaited there.
    pub fn spot(self) -> Option<Spot>
        ensures { result ≡ spot_in self }
    {
        match self {
            SectionFault::Token(fault) => Some(fault.spot()),
            SectionFault::NotAwaited(spot)
            | SectionFault::EndsEarly(spot)
            | SectionFault::GoesOn(spot)
            | SectionFault::OutsideLimits(spot)
            | SectionFault::QubitTooLarge(spot)
            | SectionFault::CheckTooLarge(spot)
            | SectionFault::NotRising(spot) => Some(spot),
            SectionFault::NoMemory => None,
        }
    }

    /// The refusal that the fault is.
    pub fn refusal(self) -> Refusal
        ensures { result ≡ refusal_in self }
    {
        match self {
            SectionFault::Token(_) | SectionFault::NotAwaited(_) => Refusal::NotAwaited,
            SectionFault::EndsEarly(_) | SectionFault::GoesOn(_) => Refusal::WrongEnd,
            SectionFault::OutsideLimits(_) => Refusal::OutsideLimits,
            SectionFault::QubitTooLarge(_) => Refusal::QubitTooLarge,
            SectionFault::CheckTooLarge(_) => Refusal::CheckTooLarge,
            SectionFault::NotRising(_) => Refusal::NotRising,
            SectionFault::NoMemory => Refusal::NoMemory,
        }
    }
}

impl FileFault {
    /// Where the fault stands, and what was awaited there. A file that is too long stands out where the longest one ends.
    pub fn spot(self) -> Option<Spot>
        ensures { result ≡ spot_of self }
    {
        match self {
            FileFault::TooLong => Some(Spot {
                section: Section::File,
                place: LONGEST,
            }),
            FileFault::Section(fault) => fault.spot(),
        }
    }

    /// The refusal that the fault is.
    pub fn refusal(self) -> Refusal
        ensures { result ≡ refusal_of self }
    {
        match self {
            FileFault::TooLong => Refusal::FileTooLong,
            FileFault::Section(fault) => fault.refusal(),
        }
    }
}

impl From<TokenFault> for SectionFault {
    ghost from_gives = { λ e f. f ≡ Token e };

    fn from(inner: TokenFault) -> SectionFault {
        SectionFault::Token(inner)
    }
}

impl From<SectionFault> for FileFault {
    ghost from_gives = { λ e f. f ≡ InSection e };

    fn from(inner: SectionFault) -> FileFault {
        FileFault::Section(inner)
    }
}

impl From<AllocError> for SectionFault {
    ghost from_gives = { λ _ f. f ≡ NoMemory };

    fn from(_error: AllocError) -> SectionFault {
        SectionFault::NoMemory
    }
}

impl<T: Drop> From<AllocFailed<T>> for SectionFault {
    ghost from_gives = { λ _ f. f ≡ NoMemory };

    fn from(_refused: AllocFailed<T>) -> SectionFault {
        SectionFault::NoMemory
    }
}

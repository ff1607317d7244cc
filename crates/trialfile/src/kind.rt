//! The two lists of a report.
ghost use Rattle.std.specs.Prelude.{◌≡◌};
ghost use Rattle.trialfile.specs.Sections.{section_of, too_large};

use crate::fault::SectionFault;
use tokens::section::{Section, Spot};

/// A list of a report: the lost qubits or the odd checks.
#[derive(Clone, Copy)]
pub(crate) enum Kind {
    Lost,
    Odd,
}

impl Kind {
    pub(crate) fn section(self) -> Section
        ensures { result ≡ section_of self }
    {
        match self {
            Kind::Lost => Section::Erased,
            Kind::Odd => Section::Odd,
        }
    }

    /// The fault of a number that is none of the code's qubits or checks.
    pub(crate) fn too_large(self, spot: Spot) -> SectionFault
        ensures { result ≡ too_large self spot }
    {
        match self {
            Kind::Lost => SectionFault::QubitTooLarge(spot),
            Kind::Odd => SectionFault::CheckTooLarge(spot),
        }
    }
}

//! Runs that are no token.
ghost use Rattle.std.specs.Prelude.{◌≡◌};
ghost use Rattle.tokens.specs.Tokens.{spot_of};

use crate::section::Spot;

/// Why a run is no token: it has letters beside others, or a byte that is none of a token; or it is a number of more than four digits.
#[derive(Clone, Copy, PartialEq, Eq, Debug)]
pub enum TokenFault {
    Mixed(Spot),
    TooManyDigits(Spot),
}

impl TokenFault {
    /// Where the run starts, and what was awaited there.
    pub fn spot(self) -> Spot
        ensures { result ≡ spot_of self }
    {
        match self {
            TokenFault::Mixed(spot) | TokenFault::TooManyDigits(spot) => spot,
        }
    }
}

//! Rows and sides of a code.
ghost use Rattle.std.specs.Prelude.{◌≡◌};
ghost use Rattle.terms.specs.Rows.{exchanged, side_number, side_numbered};

use crate::refusal::Refusal;

/// A check or a generator of a code, by its number from 0.
#[derive(Clone, Copy, PartialEq, Eq, Debug)]
pub enum Row {
    Check(u16),
    Generator(u16),
}

/// The side of a qubit. On a product code, side 0 holds the pairs of columns and side 1 the pairs of rows of the seed.
#[derive(Clone, Copy, PartialEq, Eq, Debug)]
pub enum Side {
    Zero,
    One,
}

impl Row {
    /// The row of the other kind with the same number.
    pub fn exchanged(self) -> Row
        ensures { result ≡ exchanged self }
    {
        match self {
            Row::Check(k) => Row::Generator(k),
            Row::Generator(k) => Row::Check(k),
        }
    }
}

/// A side as its number.
impl From<Side> for u8 {
    ghost from_gives = { λ side n. n ≡ side_number side };

    fn from(side: Side) -> u8 {
        match side {
            Side::Zero => 0,
            Side::One => 1,
        }
    }
}

/// The side of a number; a number above 1 is outside the limits.
impl TryFrom<u8> for Side {
    type Error = Refusal;

    ghost try_from_gives = { λ n r. r ≡ side_numbered n };

    fn try_from(number: u8) -> Result<Side, Refusal> {
        match number {
            0 => Ok(Side::Zero),
            1 => Ok(Side::One),
            _ => Err(Refusal::OutsideLimits),
        }
    }
}

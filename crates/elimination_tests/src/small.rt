//! Small systems as numbers, and their solutions by trying every subset: nothing here knows how elimination works.
//!
//! A subset of n unknowns is a number of n bits, unknown 0 the most significant, so that the lesser number is the lesser solution.

/// Checks of `unknowns` bits each, with a bit above for odd, end to end in `code`, the first one lowest.
#[derive(Clone, Copy)]
pub(crate) struct System {
    pub(crate) unknowns: u16,
    pub(crate) checks: u16,
    pub(crate) code: u32,
}

/// Whether the bit of a mask is set.
pub(crate) fn bit(mask: u32, k: u16) -> bool {
    (mask >> (k % 32)) & 1 == 1
}

/// Two to the k.
pub(crate) fn power(k: u16) -> u32 {
    1 << (k % 32)
}

/// Whether an odd number of elements lie in both.
pub(crate) fn odd(a: u32, b: u32) -> bool {
    (a & b).count_ones() % 2 == 1
}

impl System {
    /// The unknowns of a check.
    pub(crate) fn left(self, i: u16) -> u32 {
        let width = self.unknowns.wrapping_add(1);
        (self.code >> (i.wrapping_mul(width) % 32)) & power(self.unknowns).wrapping_sub(1)
    }

    /// Whether a check is odd.
    pub(crate) fn right(self, i: u16) -> bool {
        let width = self.unknowns.wrapping_add(1);
        bit(self.code, i.wrapping_mul(width).wrapping_add(self.unknowns))
    }

    /// Whether the subset puts an odd number into exactly the odd checks.
    pub(crate) fn explained(self, x: u32) -> bool {
        (0..self.checks).all(|i| odd(self.left(i), x) == self.right(i))
    }

    /// Whether the subset puts an even number into every check.
    pub(crate) fn even(self, x: u32) -> bool {
        (0..self.checks).all(|i| !odd(self.left(i), x))
    }

    /// The number of solutions, and the least.
    pub(crate) fn solutions(self) -> (u32, Option<u32>) {
        (0..power(self.unknowns))
            .filter(|x| self.explained(*x))
            .fold((0u32, None), |(count, least), x| {
                (count.wrapping_add(1), least.or(Some(x)))
            })
    }

    /// Whether some subset is even on every check and odd on this row.
    pub(crate) fn independent(self, row: u32) -> bool {
        (0..power(self.unknowns)).any(|x| self.even(x) && odd(row, x))
    }
}

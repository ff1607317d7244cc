//! Systems of a code's checks, in the words of the rules: stated to an elimination check by check, and what it answers.
#![tactic(auto)]

ghost use Rattle.std.specs.Prelude.{◌≡◌, ◌≤◌, take, vec_len};
ghost use Rattle.systems.specs.Places.{Placed};
ghost use Rattle.systems.specs.declared.TheConstants.{MOST, QUBITS};

use elimination::Elimination;

mod asking;
mod placing;
mod stating;
mod touching;

/// The most unknowns.
pub(crate) const MOST: usize = 256;

/// The most qubits that a code has, and the most checks.
pub(crate) const QUBITS: usize = 2048;

pub(crate) const CHECKS: usize = 1024;

/// A system: unknown qubits of a code, and checks of it. Its memory is taken when it is made, and serves one system after another.
// Kept: as in `Elimination`, each contract speaks of every system that has been stated, since a ghost field could name but one; and the list is as
// long as the most unknowns ask for, since no call but `new` may want memory.
#[derive(Drop)]
pub struct System {
    elimination: Elimination<bool>,
    /// The unknowns, rising; the first `count` places are used.
    unknowns: Vec<u16>,
    count: usize,
    /// For each qubit its place among the unknowns, so that none is searched for.
    places: Vec<Option<u16>>,
    /// Marks for checks that have been met.
    met: Vec<bool>,
    ghost few: { count ≤ MOST },
    ghost room: { vec_len unknowns ≡ MOST },
    ghost wide: { vec_len places ≡ QUBITS },
    ghost placed: { Placed places.items (take count unknowns.items) },
}

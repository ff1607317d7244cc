//! Elimination over at most 256 unknowns, in tables that are made once and used again. A check is written coefficient by coefficient and then added;
//! what has been added tells whether there is a solution, the least one, the slack, and whether a further check is independent.
#![tactic(auto)]

ghost use Rattle.std.specs.Prelude.{◌≡◌, vec_len};
ghost use Rattle.elimination.specs.declared.echelon.TheConstants.{MOST, STRIDE};

mod asking;
mod echelon;
mod stating;

use echelon::{Echelon, MOST, STRIDE};

/// A system of checks over some unknowns, reduced as each check comes in.
///
/// The columns of the table are the unknowns, the highest first, so that the solution with every free unknown zero is the least.
// Kept: by `Holds` each contract speaks of every system that the tables may hold. Many lists of checks come to the same tables, and a ghost field could name but one.
#[derive(Drop)]
pub struct Elimination<T> {
    echelon: Echelon<T>,
    contradicts: bool,
    // Kept: both are as long as the most unknowns ask for, and the first places of them are used, since no call but `new` may want memory. Lists as
    // long as they are used would be made in full and cut in `new`, cleared and resized in `begin`, with an arm for want of memory that cannot
    // come, and have two facts each, on length and on room, where each has one.
    /// The check that is being written, in the order of the table's rows.
    row: Vec<T>,
    /// The least solution, once solved.
    least: Vec<T>,
    ghost rowed: { vec_len row ≡ STRIDE },
    ghost roomy: { vec_len least ≡ MOST },
}

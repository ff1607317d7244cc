//! A code from the caller's tables: the qubits of each row and the side of each qubit, listed.
#![tactic(auto)]

ghost use Rattle.std.specs.Prelude.{◌≡◌, false, is_some};
ghost use Rattle.listed.specs.Fault.{listed_fault};

use rows::Rows;

pub mod answers;
mod faults;
mod making;

/// A code whose tables have no fault. Rows are told as they are listed.
#[derive(Drop)]
pub struct Listed {
    checks: Rows,
    generators: Rows,
    // Kept: `new` takes over the caller's bytes, for a list of sides in their place would have to be allocated, and `new` can't run out of memory.
    sides: Vec<u8>,
    ghost ok: { is_some (listed_fault checks generators sides.items) ≡ false },
}

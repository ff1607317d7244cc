//! The places of qubits among the unknowns.
ghost use Rattle.std.specs.Prelude.{◌≡◌, ◌<◌, ◌≤◌, ℕ, false, None, length, slice_index, slice_index_or};
ghost use Rattle.std.specs.Option.{ForSome, ForNone};
ghost use Rattle.sets.specs.Sets.{among};
ghost use Rattle.systems.specs.Places.{Placed};
ghost use Rattle.systems.specs.Stated.{unknowns_of};

use super::System;

impl System {
    /// The place of a qubit among the unknowns.
    pub(crate) fn place(&self, qubit: u16) -> Option<u16>
        ensures none { qubit < 2048 → ForNone result (among qubit (unknowns_of self.now) ≡ false) }
        ensures place { qubit < 2048 → ForSome result (λ t. (t < length (unknowns_of self.now)) × (slice_index (unknowns_of self.now) t ≡ qubit)) }
    {
        *self.places.get(usize::from(qubit))?
    }
}

/// Writes for each qubit of a list where it stands there.
pub(crate) fn place_each(qubits: &[u16], places: &mut [Option<u16>])
    requires few { length qubits.now ≤ 256 }
    requires none { (q : ℕ) → q < length places.old → slice_index_or places.old q None ≡ None }
    ensures placed { Placed places.new qubits.now }
    ensures same { length places.new ≡ length places.old }
{
    for (place, qubit) in qubits.iter().enumerate() {
        let q = usize::from(*qubit);
        // Kept: by index, since nothing is known of a slice after `get_mut`.
        if q < places.len() {
            places[q] = Some(place as u16);
        }
    }
}

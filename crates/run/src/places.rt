//! How far a run has looked.
ghost use Rattle.std.specs.Prelude.{◌≡◌};
ghost use Rattle.running.specs.Finding.{back_to};

/// No check below the one is dangling, and none of the generators below the other has qubits and all of them erased.
#[derive(Clone, Copy)]
pub(crate) struct Places {
    pub(crate) check: u16,
    pub(crate) generator: u16,
}

/// A place, or the one found where that is lower.
pub(crate) fn back_to(place: u16, found: Option<u16>) -> u16
    ensures { result ≡ back_to place found }
{
    match found {
        Some(lower) => lower.min(place),
        None => place,
    }
}

//! One side's part of a row of a product code.
ghost use Rattle.std.specs.Prelude.{◌≤◌};

mod qubits;

/// The qubits of a row on one side: for each one of the word, at its place x, the qubit `first + x * step`.
#[derive(Clone, Copy)]
pub(crate) struct Part {
    word: u32,
    first: u16,
    step: u16,
    ghost first_low: { first ≤ 2048 },
    ghost step_low: { step ≤ 32 },
}

/// The qubits of a row: those on side 0, and then those on side 1.
#[derive(Clone, Copy)]
pub(crate) struct Parts {
    front: Part,
    back: Part,
}

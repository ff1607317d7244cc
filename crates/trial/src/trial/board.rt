//! What a trial knows of each qubit and each check.
ghost use Rattle.std.specs.Prelude.{◌≡◌, length};
ghost use Rattle.meaning.specs.Meaning.{qubits};
ghost use Rattle.table.specs.OfTable.{meaning_of};

use super::erasing::Erasures;

/// Which qubits are erased, shelved and flipped, and which checks are odd.
#[derive(Drop)]
pub(crate) struct Board<'t> {
    pub(crate) erasures: Erasures<'t>,
    pub(crate) flipped: Vec<bool>,
    pub(crate) odd: Vec<bool>,
    ghost flips: { length flipped.items ≡ qubits (meaning_of erasures.table.now) },
    ghost odds: { length odd.items ≡ length (meaning_of erasures.table.now).checks },
}

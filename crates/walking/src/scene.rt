//! What a walk looks at.
ghost use Rattle.std.specs.Prelude.{◌≡◌, true, length};
ghost use Rattle.sets.specs.Sets.{has};
ghost use Rattle.meaning.specs.Meaning.{qubits};
ghost use Rattle.table.specs.OfTable.{meaning_of};
ghost use Rattle.upkeep.specs.Statuses.{erased_of};

use rules::answers::Status;
use table::Table;

pub(crate) mod asking;

/// A code, where its qubits stand, which of its checks are closed, and the erased qubit that a walk starts from.
#[derive(Drop)]
pub(crate) struct Scene<'a> {
    pub(crate) table: &'a Table,
    pub(crate) status: &'a [Status],
    pub(crate) closed: &'a [bool],
    pub(crate) start: u16,
    ghost statuses: { length status.now ≡ qubits (meaning_of table.now) },
    ghost checks: { length closed.now ≡ length (meaning_of table.now).checks },
    ghost erased: { has (erased_of status.now) start ≡ true },
}

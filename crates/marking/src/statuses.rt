//! Where the qubits of a row stand.
ghost use Rattle.std.specs.Prelude.{◌≡◌, ◌||◌};
ghost use Rattle.sets.specs.Sets.{has, any as some};
ghost use Rattle.upkeep.specs.Rows.{first_in, all_in};
ghost use Rattle.upkeep.specs.Statuses.{erased_of, shelved_of};

use rules::answers::Status;

/// Whether a qubit is erased.
pub fn is_erased(qubit: u16, status: &[Status]) -> bool
    ensures { result ≡ has (erased_of status.now) qubit }
{
    status.get(usize::from(qubit)) == Some(&Status::Erased)
}

/// The first erased qubit of a row.
pub fn erased_among(row: &[u16], status: &[Status]) -> Option<u16>
    ensures { result ≡ first_in (erased_of status.now) row.now }
{
    row.iter().copied().find(|q| is_erased(*q, status))
}

/// Whether all qubits of a row are erased.
pub fn all_erased(row: &[u16], status: &[Status]) -> bool
    ensures { result ≡ all_in (erased_of status.now) row.now }
{
    row.iter().all(|q| is_erased(*q, status))
}

/// Whether some qubit is not done.
pub fn some_left(status: &[Status]) -> bool
    ensures { result ≡ (some (erased_of status.now) || some (shelved_of status.now)) }
{
    status.iter().any(|s| *s != Status::Done)
}

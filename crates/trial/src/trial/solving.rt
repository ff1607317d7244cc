//! The system of a set of qubits.
ghost use Rattle.std.specs.Prelude.{◌≡◌, Bool, List, length};
ghost use Rattle.terms.specs.Answering.{Answers};
ghost use Rattle.sets.specs.Sets.{elements, less, holders};
ghost use Rattle.rules.specs.Systems.{solutions};
ghost use Rattle.elimination.specs.Calls.{too_many};
ghost use Rattle.table.specs.OfTable.{meaning_of};
ghost use Rattle.trial.specs.Solving.{SolvedOver};

use systems::System;
use table::Table;
use terms::refusal::Refusal;

/// States the system of these qubits and of all open checks that hold one, and solves it: the slack, if there is a solution. The least one then
/// stands in the system.
pub(crate) fn solve_touched(
    system: &mut System,
    table: &Table,
    qubits: &[u16],
    closed: &[bool],
    odd: &[bool],
) -> Result<Option<u16>, Refusal>
    ensures { (k : List Bool) → elements k ≡ qubits.now → length closed.now ≡ length (meaning_of table.now).checks → length odd.now ≡ length (meaning_of table.now).checks → Answers result (too_many (length qubits.now)) (λ o. SolvedOver system.new k (solutions (meaning_of table.now).checks k (less (holders (meaning_of table.now).checks k) closed.now) odd.now) o) }
{
    system.begin(qubits)?;
    system.add_touched(table, closed, odd);
    Ok(system.solve())
}

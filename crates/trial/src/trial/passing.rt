//! Clusters that are passed over.
ghost use Rattle.std.specs.Prelude.{◌≡◌, true, false, length};
ghost use Rattle.std.specs.List.{find, range_with_len};
ghost use Rattle.sets.specs.Sets.{has, elements};
ghost use Rattle.meaning.specs.Meaning.{qubits};
ghost use Rattle.rules.specs.Calls.{solve};
ghost use Rattle.rules.specs.Clusters.{cluster};
ghost use Rattle.rules.specs.Run.{passed_over, can_solve};
ghost use Rattle.rules.specs.States.{State};
ghost use Rattle.table.specs.OfTable.{meaning_of};
ghost use Rattle.upkeep.specs.Statuses.{erased_of};
ghost use Rattle.trial.specs.Passing.{ShownBy};

use super::board::Board;
use marking::changing::mark;
use marking::looking::is_marked;
use marking::statuses::is_erased;
use walking::found::Connecting;
use walking::walker::Walker;

/// The lowest erased qubit that a solve is not refused at for several connecting checks or too many unknowns. Such a refusal holds for all of a
/// cluster, so the qubits of a cluster that was walked are marked and passed over.
pub(crate) fn lowest_solvable(
    walker: &mut Walker,
    passed: &mut [bool],
    board: &Board,
    closed: &[bool],
    void: bool,
    scratch: &mut [u8],
) -> Option<u16>
    requires walks { walker.old.table ≡ board.now.erasures.table.now }
    requires closed { length closed.now ≡ length (meaning_of board.now.erasures.table.now).checks }
    ensures finds { (s : State) → ShownBy board.now.erasures.status.items closed.now void s → result ≡ find (can_solve (meaning_of board.now.erasures.table.now) scratch.old s) (range_with_len 0 (qubits (meaning_of board.now.erasures.table.now))) }
    ensures walks { walker.new.table ≡ walker.old.table }
    ensures scratch { scratch.new ≡ scratch.old }
{
    passed.fill(false);
    for q in 0..board.erasures.table.qubits() {
        if !is_erased(q, board.erasures.status.as_slice()) {
            continue;
        }
        if is_marked(q, passed) {
            continue;
        }
        if void {
            return Some(q);
        }
        if !is_passed_over(walker, board, closed, q, scratch) {
            return Some(q);
        }
        mark(walker.members(), passed);
    }
    None
}

/// Walks the cluster of an erased qubit: whether a solve there is refused for several connecting checks or too many unknowns.
fn is_passed_over(
    walker: &mut Walker,
    board: &Board,
    closed: &[bool],
    qubit: u16,
    scratch: &mut [u8],
) -> bool
    requires walks { walker.old.table ≡ board.now.erasures.table.now }
    requires closed { length closed.now ≡ length (meaning_of board.now.erasures.table.now).checks }
    requires erased { has (erased_of board.now.erasures.status.items) qubit ≡ true }
    ensures passes { (s : State) → ShownBy board.now.erasures.status.items closed.now false s → result ≡ passed_over (solve (meaning_of board.now.erasures.table.now) s s.number qubit scratch.old).0 }
    ensures members { result ≡ true → (s : State) → ShownBy board.now.erasures.status.items closed.now false s → walker.new.members ≡ elements (cluster (meaning_of board.now.erasures.table.now) s qubit) }
    ensures walks { walker.new.table ≡ walker.old.table }
    ensures scratch { scratch.new ≡ scratch.old }
{
    let status = board.erasures.status.as_slice();
    let Ok(connecting) = walker.walk(status, closed, qubit, scratch) else {
        return false;
    };
    if let Connecting::Several = connecting {
        return true;
    }
    walker.members().len() > 256
}

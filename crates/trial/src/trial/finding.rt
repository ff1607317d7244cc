//! What is found of a cluster.
ghost use Rattle.std.specs.Prelude.{◌≡◌, ℕ, ◌<◌, Bool, List, length};
ghost use Rattle.terms.specs.Answering.{Answers};
ghost use Rattle.sets.specs.Sets.{elements, size};
ghost use Rattle.meaning.specs.Meaning.{qubits};
ghost use Rattle.rules.specs.States.{State};
ghost use Rattle.rules.specs.Clusters.{cluster, internal};
ghost use Rattle.elimination.specs.Calls.{too_many};
ghost use Rattle.table.specs.OfTable.{meaning_of};
ghost use Rattle.systems.specs.Stated.{Stated};
ghost use Rattle.trial.specs.Clusters.{StandsOn, Met, IsFree, FoundOf, FoundBy, solve_fault};

use super::board::Board;
use systems::System;
use table::Table;
use terms::refusal::Refusal;
use walking::found::Connecting;
use walking::walker::Walker;

/// What is found of a cluster whose internal checks have a solution: the slack, and its connecting check, if there is one and it is free.
#[derive(Clone, Copy)]
pub(crate) struct Finding {
    pub(crate) slack: u16,
    pub(crate) free: Option<u16>,
}

/// Walks the cluster of a qubit of the code and solves it over its internal checks: what is found, if there is a solution. The least one then stands
/// in the system, and the members of the cluster in the walker.
pub(crate) fn find(
    walker: &mut Walker,
    system: &mut System,
    board: &Board,
    closed: &[bool],
    qubit: u16,
    scratch: &mut [u8],
) -> Result<Option<Finding>, Refusal>
    requires walks { walker.old.table ≡ board.now.erasures.table.now }
    requires low { qubit < qubits (meaning_of board.now.erasures.table.now) }
    requires closed { length closed.now ≡ length (meaning_of board.now.erasures.table.now).checks }
    ensures found { (s : State) → StandsOn board.now closed.now s → Answers result (solve_fault (meaning_of board.now.erasures.table.now) s qubit scratch.old) (FoundBy walker.new system.new (meaning_of board.now.erasures.table.now) s qubit) }
    ensures walks { walker.new.table ≡ walker.old.table }
    ensures scratch { scratch.new ≡ scratch.old }
{
    let status = board.erasures.status.as_slice();
    let connecting = walker.walk(status, closed, qubit, scratch)?;
    if let Connecting::Several = connecting {
        return Err(Refusal::SeveralConnecting);
    }
    solve_cluster(system, walker, board, connecting)
}

/// States the system of a cluster that was walked and of its internal checks, and solves it.
fn solve_cluster(
    system: &mut System,
    walker: &Walker,
    board: &Board,
    connecting: Connecting,
) -> Result<Option<Finding>, Refusal>
    ensures { (s : State) (q : ℕ) → s.odds ≡ board.now.odd.items → Met (meaning_of board.now.erasures.table.now) s q connecting → walker.now.members ≡ elements (cluster (meaning_of board.now.erasures.table.now) s q) → walker.now.internal ≡ elements (internal (meaning_of board.now.erasures.table.now) s q (cluster (meaning_of board.now.erasures.table.now) s q)) → Answers result (too_many (size (cluster (meaning_of board.now.erasures.table.now) s q))) (FoundOf system.new (meaning_of board.now.erasures.table.now) s q) }
{
    let table = board.erasures.table;
    system.begin(walker.members())?;
    system.add_all(table, walker.internal(), board.odd.as_slice());
    let free = free_check(system, table, connecting);
    let Some(slack) = system.solve() else {
        return Ok(None);
    };
    Ok(Some(Finding { slack, free }))
}

/// The connecting check, if it is a single one and free beside the checks that have been stated.
fn free_check(system: &mut System, table: &Table, connecting: Connecting) -> Option<u16>
    ensures stated { (k among odds : List Bool) → Stated system.old (meaning_of table.now) k among odds → Stated system.new (meaning_of table.now) k among odds }
    ensures free { (s : State) (q : ℕ) → Met (meaning_of table.now) s q connecting → Stated system.old (meaning_of table.now) (cluster (meaning_of table.now) s q) (internal (meaning_of table.now) s q (cluster (meaning_of table.now) s q)) s.odds → IsFree (meaning_of table.now) s q result }
{
    let Connecting::One(check) = connecting else {
        return None;
    };
    if system.is_free(table, check) {
        Some(check)
    } else {
        None
    }
}

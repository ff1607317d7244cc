//! What is asked of qubits and checks on a walk.
ghost use Rattle.std.specs.Prelude.{◌≡◌, not};
ghost use Rattle.sets.specs.Sets.{has, row, meets};
ghost use Rattle.walking.specs.Scenes.{code_of, beside, across};

use super::Scene;
use marking::looking::is_marked;
use marking::statuses::is_erased;
use terms::row::Row;

impl Scene<'_> {
    /// Whether a qubit is erased, on the side of the start.
    pub(crate) fn is_beside(&self, qubit: u16) -> bool
        ensures { result ≡ has (beside self.now) qubit }
    {
        is_erased(qubit, self.status) && self.table.side(qubit) == self.table.side(self.start)
    }

    /// Whether a qubit is erased, on the other side.
    pub(crate) fn is_across(&self, qubit: u16) -> bool
        ensures { result ≡ has (across self.now) qubit }
    {
        is_erased(qubit, self.status) && self.table.side(qubit) != self.table.side(self.start)
    }

    /// Whether a check is open.
    pub(crate) fn is_open(&self, check: u16) -> bool
        ensures { result ≡ not (has self.now.closed.now check) }
    {
        !is_marked(check, self.closed)
    }

    /// Whether a check holds an erased qubit of the other side.
    pub(crate) fn connects(&self, check: u16) -> bool
        ensures { result ≡ meets (row (code_of self.now).checks check) (across self.now) }
    {
        // Kept: with `any` and a closure that captures `self` the goal `returns` stayed open.
        for q in self.table.row(Row::Check(check)) {
            if self.is_across(*q) {
                return true;
            }
        }
        false
    }
}

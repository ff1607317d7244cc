//! What a system answers.
ghost use Rattle.std.specs.Prelude.{◌≡◌, ◌≤◌, true, replicate, IfSome};
ghost use Rattle.std.specs.Bool.{OnFalse};
ghost use Rattle.linear.specs.System.{solutions};
ghost use Rattle.elimination.specs.Holds.{Holds, WhereHeld, solution};
ghost use Rattle.elimination.specs.Calls.{First, Power, Independent};

use super::Elimination;
use values::{Value, clear};

impl<T: Value> Elimination<T> {
    // Kept: a result that borrows from `&mut self` leaves no `self.new` to its clauses, and a caller has to know that the system is still held.
    /// Whether there is a solution. The least one is then in `least`; without one nothing changes.
    pub fn solve(&mut self) -> bool
        ensures first { WhereHeld T.Value.field self.old (λ n rows written. Holds T.Value.field self.new n rows written × First result (solutions T.Value.field (replicate n true) rows) (solution self.new)) }
        ensures kept { OnFalse result (self.new ≡ self.old) }
    {
        if self.contradicts {
            return false;
        }
        let out = &mut self.least[0..self.echelon.width];
        self.echelon.least(out);
        out.reverse();
        true
    }

    /// The solution that `solve` found last: a value for each unknown, in rising order.
    pub fn least(&self) -> &[T]
        ensures { result.now ≡ solution self.now }
    {
        &self.least[0..self.echelon.width]
    }

    /// The slack: there are (number of values) ^ slack solutions. None where there is no solution.
    pub fn slack(&self) -> Option<u16>
        ensures few { IfSome result (λ s. s ≤ 256) }
        ensures power { WhereHeld T.Value.field self.now (λ n rows written. Power T.Value.field (solutions T.Value.field (replicate n true) rows) result) }
    {
        if self.contradicts {
            return None;
        }
        Some(self.echelon.slack() as u16)
    }

    /// Whether the check that was written is independent of those added, which stay as they are. The next check begins with no coefficients.
    pub fn is_independent(&mut self) -> bool
        ensures { WhereHeld T.Value.field self.old (λ n rows written. Holds T.Value.field self.new n rows (replicate n T.Value.field.zer) × Independent T.Value.field n rows written result) }
    {
        let row = &mut self.row[0..self.echelon.width + 1];
        let column = self.echelon.reduce(row);
        clear(row);
        column.is_some()
    }
}

//! All checks that touch the unknowns.
ghost use Rattle.std.specs.Prelude.{◌≡◌, Bool, List, length};
ghost use Rattle.sets.specs.Sets.{join, less, holders};
ghost use Rattle.table.specs.OfTable.{meaning_of};
ghost use Rattle.systems.specs.Told.{holding, AllIn};
ghost use Rattle.systems.specs.Stated.{Stated, unknowns_of};

use super::System;
use marking::changing::mark;
use marking::looking::is_marked;
use table::Table;
use values::clear;

impl System {
    /// Adds each open check of the code that holds an unknown, odd if it is marked so.
    pub fn add_touched(&mut self, table: &Table, closed: &[bool], odd: &[bool])
        ensures { (k among : List Bool) → length closed.now ≡ length (meaning_of table.now).checks → Stated self.old (meaning_of table.now) k among odd.now → Stated self.new (meaning_of table.now) k (join among (less (holders (meaning_of table.now).checks k) closed.now)) odd.now }
    {
        clear(self.met.as_mut_slice());
        // Kept: by number, since the unknowns are the system's, which each turn changes.
        for place in 0..self.count {
            let qubit = self.unknowns[place];
            self.add_at(table, qubit, closed, odd);
        }
    }

    /// Adds each open check that holds a qubit and was not met before. A check that was met has been added.
    fn add_at(&mut self, table: &Table, qubit: u16, closed: &[bool], odd: &[bool])
        ensures added { (k among : List Bool) → length closed.now ≡ length (meaning_of table.now).checks → AllIn self.old.met.items among → Stated self.old (meaning_of table.now) k among odd.now → Stated self.new (meaning_of table.now) k (join among (less (holding (meaning_of table.now).checks qubit) closed.now)) odd.now × AllIn self.new.met.items (join among (less (holding (meaning_of table.now).checks qubit) closed.now)) }
        ensures unknowns { unknowns_of self.new ≡ unknowns_of self.old }
    {
        for check in table.checks_at(qubit) {
            let passed_over = is_marked(*check, closed) || is_marked(*check, self.met.as_slice());
            if !passed_over {
                self.state(table, *check, is_marked(*check, odd));
                mark(&[*check], self.met.as_mut_slice());
            }
        }
    }
}

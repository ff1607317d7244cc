//! Finding what can be done next.
ghost use Rattle.std.specs.Prelude.{◌≡◌, length};
ghost use Rattle.std.specs.List.{find};
ghost use Rattle.sets.specs.Sets.{row};
ghost use Rattle.rules.specs.Calls.{dangling};
ghost use Rattle.rules.specs.Run.{all_erased, ending};
ghost use Rattle.table.specs.Columns.{holders_of};
ghost use Rattle.table.specs.OfTable.{meaning_of};
ghost use Rattle.running.specs.Finding.{numbers_from, lowest_in};

use super::Trial;
use marking::statuses::{is_erased, some_left};
use rules::answers::Ending;
use terms::row::Row;

impl Trial<'_> {
    /// The lowest dangling check, from this number on.
    pub fn dangling_from(&self, check: u16) -> Option<u16>
        ensures { result ≡ find (dangling (meaning_of self.now.table) self.now.state) (numbers_from check (length (meaning_of self.now.table).checks)) }
    {
        let checks = self.board.erasures.table.checks();
        (check..checks).find(|c| self.is_dangling(*c))
    }

    /// The lowest dangling check of those that hold a qubit.
    pub fn dangling_at(&self, qubit: u16) -> Option<u16>
        ensures { result ≡ find (dangling (meaning_of self.now.table) self.now.state) (holders_of (meaning_of self.now.table).checks qubit) }
    {
        let checks = self.board.erasures.table.checks_at(qubit);
        checks.iter().copied().find(|c| self.is_dangling(*c))
    }

    /// The lowest generator, from this number on, that has qubits and all of them erased.
    pub fn all_erased_from(&self, generator: u16) -> Option<u16>
        ensures { result ≡ find (all_erased (meaning_of self.now.table) self.now.state) (numbers_from generator (length (meaning_of self.now.table).generators)) }
    {
        let table = self.board.erasures.table;
        'generators: for g in generator..table.generators() {
            let row = table.row(Row::Generator(g));
            if row.is_empty() {
                continue;
            }
            for q in row {
                if !is_erased(*q, self.board.erasures.status.as_slice()) {
                    continue 'generators;
                }
            }
            return Some(g);
        }
        None
    }

    /// The lowest qubit of a generator, if it has qubits.
    pub fn lowest_of(&self, generator: u16) -> Option<u16>
        ensures { result ≡ lowest_in (row (meaning_of self.now.table).generators generator) }
    {
        let row = self.board.erasures.table.row(Row::Generator(generator));
        row.iter().copied().min()
    }

    /// How a run would end that finds nothing to do.
    pub fn ending(&self) -> Ending
        ensures { result ≡ ending self.now.state }
    {
        if self.void {
            return Ending::Void;
        }
        if some_left(self.board.erasures.status.as_slice()) {
            return Ending::Stopped;
        }
        Ending::Emptied
    }
}

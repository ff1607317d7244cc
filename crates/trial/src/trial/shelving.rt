//! Qubits that are shelved.
ghost use Rattle.std.specs.Prelude.{◌≡◌, List, Bool, false, length};
ghost use Rattle.sets.specs.Sets.{elements};
ghost use Rattle.meaning.specs.Meaning.{qubits};
ghost use Rattle.rules.specs.Reports.{some_past};
ghost use Rattle.rules.specs.States.{State};
ghost use Rattle.table.specs.OfTable.{meaning_of};
ghost use Rattle.trial.specs.Boards.{on_board, set_aside};

use super::board::Board;

impl Board<'_> {
    /// The qubits of a rising list are shelved.
    pub(crate) fn shelve_each(&mut self, list: &[u16])
        requires { some_past (qubits (meaning_of self.old.erasures.table.now)) list.now ≡ false }
        ensures does { (k : List Bool) → length k ≡ qubits (meaning_of self.old.erasures.table.now) → elements k ≡ list.now → (s : State) → on_board self.new s ≡ set_aside k (on_board self.old s) }
        ensures table { self.new.erasures.table.now ≡ self.old.erasures.table.now }
    {
        self.erasures.shelve_each(list);
    }
}

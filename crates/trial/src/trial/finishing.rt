//! Qubits that are done.
ghost use Rattle.std.specs.Prelude.{◌≡◌, ◌<◌, List, Bool, true, false, length, if◌then◌else◌};
ghost use Rattle.sets.specs.Sets.{only, empty, elements};
ghost use Rattle.meaning.specs.Meaning.{qubits};
ghost use Rattle.linear.specs.Field.{bits};
ghost use Rattle.linear.specs.Compress.{expand};
ghost use Rattle.rules.specs.Reports.{some_past};
ghost use Rattle.rules.specs.States.{State, finish as finished};
ghost use Rattle.table.specs.OfTable.{meaning_of};
ghost use Rattle.trial.specs.Boards.{on_board, one_done};

use super::Trial;
use super::board::Board;
use marking::changing::turn;
use rules::answers::Status;

impl Board<'_> {
    /// The qubit is done, and flipped first if so asked.
    pub(crate) fn finish(&mut self, qubit: u16, flip: bool)
        requires { qubit < qubits (meaning_of self.old.erasures.table.now) }
        ensures does { (s : State) → on_board self.new s ≡ one_done (meaning_of self.old.erasures.table.now) qubit flip (on_board self.old s) }
        ensures table { self.new.erasures.table.now ≡ self.old.erasures.table.now }
    {
        // What is flipped turns its checks.
        let odd = if flip {
            self.erasures.table.checks_at(qubit)
        } else {
            &[]
        };
        turn(odd, self.odd.as_mut_slice());
        self.flipped[qubit as usize] ^= flip;
        self.erasures.take_out(qubit, Status::Done);
    }

    /// The qubits of a rising list are done, those first flipped at whose places `flips` has true.
    pub(crate) fn finish_each(&mut self, list: &[u16], flips: &[bool])
        requires { some_past (qubits (meaning_of self.old.erasures.table.now)) list.now ≡ false }
        ensures does { (k : List Bool) → length k ≡ qubits (meaning_of self.old.erasures.table.now) → elements k ≡ list.now → (s : State) → on_board self.new s ≡ finished (meaning_of self.old.erasures.table.now) k (expand bits k flips.now) (on_board self.old s) }
        ensures table { self.new.erasures.table.now ≡ self.old.erasures.table.now }
    {
        for (place, qubit) in list.iter().enumerate() {
            let flip = flips.get(place) == Some(&true);
            self.finish(*qubit, flip);
        }
    }
}

impl Trial<'_> {
    /// The qubit is done, and flipped first if so asked.
    pub(crate) fn finish(&mut self, qubit: u16, flip: bool)
        requires { qubit < qubits (meaning_of self.old.table) }
        ensures does { self.new.state ≡ finished (meaning_of self.old.table) (only (qubits (meaning_of self.old.table)) qubit) (if flip then only (qubits (meaning_of self.old.table)) qubit else empty (qubits (meaning_of self.old.table))) self.old.state }
        ensures table { self.new.table ≡ self.old.table }
    {
        self.board.finish(qubit, flip);
    }
}

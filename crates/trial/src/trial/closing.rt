//! Closing a trial, and copying the correction out.
ghost use Rattle.std.specs.Prelude.{◌≡◌};
ghost use Rattle.rules.specs.Tallies.{outcome, close, copy_out};
ghost use Rattle.table.specs.OfTable.{meaning_of};
ghost use Rattle.trial.specs.Closing.{closed_of, TellsTruth};

use super::Trial;
use crate::slip::Slip;
use crate::tally::Tally;
use marking::changing::write_marks;
use marking::masks::any;
use marking::statuses::some_left;
use rules::answers::{Outcome, Verdict};
use terms::refusal::Refusal;

/// A close that was refused, and the slip, which it gives back.
pub struct NotClosed {
    pub refusal: Refusal,
    pub slip: Slip,
}

impl Trial<'_> {
    /// Closes the trial: the outcome is counted on the tally, and the slip is spent. The trial stays as it is.
    ///
    /// Whatever was called on the trial since it was opened, the answer is true of the report that it was opened on: "nothing fits" only if no
    /// error fits; "solved" only if the flipped qubits fit, exactly 2 ^ (pruned + chosen) errors do, and with nothing chosen each of these differs
    /// from the flipped qubits by a product of generators.
    pub fn close(&self, slip: Slip, tally: &mut Tally) -> Result<Verdict, NotClosed>
        ensures does { closed_of result tally.new ≡ close self.now.state slip.number tally.old.counts }
        ensures truth { TellsTruth (meaning_of self.now.table) self.now.state result }
    {
        if !self.is_shown(&slip) || tally.has_none_out() {
            let refusal = Refusal::WrongSlip;
            return Err(NotClosed { refusal, slip });
        }
        slip.spend();
        let outcome = self.outcome();
        tally.close_one(outcome);
        Ok(Verdict {
            outcome,
            peeled: self.peeled,
            pruned: self.pruned,
            chosen: self.chosen,
        })
    }

    /// What a close says: a void trial fits nothing; else it is unfinished while a qubit is erased or shelved; else an odd check shows that nothing fits.
    fn outcome(&self) -> Outcome
        ensures { result ≡ outcome self.now.state }
    {
        if self.void {
            return Outcome::Nothing;
        }
        if some_left(self.board.erasures.status.as_slice()) {
            return Outcome::Unfinished;
        }
        if any(self.board.odd.as_slice()) {
            return Outcome::Nothing;
        }
        Outcome::Solved
    }

    /// Writes 1 for a flipped qubit and 0 for another into the first bytes of a buffer, one a qubit; the others keep their values.
    pub fn copy_out(&self, buffer: &mut [u8]) -> Result<(), Refusal>
        ensures { (result, buffer.new) ≡ copy_out (meaning_of self.now.table) self.now.state buffer.old }
    {
        write_marks(self.board.flipped.as_slice(), buffer)
    }
}

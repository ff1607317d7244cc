//! The shelf at the end of a run.
ghost use Rattle.std.specs.Prelude.{◌≡◌, length};
ghost use Rattle.rules.specs.Run.{settles};
ghost use Rattle.table.specs.OfTable.{meaning_of};

use trial::slip::Slip;
use trial::trial::Trial;

/// Settles until the shelf is empty; where a settle is refused, each further one would be.
pub(crate) fn settle_shelf(trial: &mut Trial<'_>, slip: &Slip)
    requires shown { slip.now.number ≡ trial.old.state.number }
    ensures does { trial.new.state ≡ settles (meaning_of trial.old.table) (length trial.old.state.shelf) trial.old.state }
    ensures table { trial.new.table ≡ trial.old.table }
{
    for _entry in 0..trial.view().shelf.len() {
        if trial.settle(slip).is_err() {
            break;
        }
    }
}

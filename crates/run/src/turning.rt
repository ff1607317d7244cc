//! Turns.
ghost use Rattle.std.specs.Prelude.{◌≡◌, false};
ghost use Rattle.meaning.specs.Meaning.{qubits};
ghost use Rattle.rules.specs.Run.{next, turns};
ghost use Rattle.running.specs.Turning.{taken};
ghost use Rattle.table.specs.OfTable.{meaning_of};
ghost use Rattle.run.specs.Passed.{Passed};

use crate::finding::{peel_lowest, prune_lowest, solve_lowest, sweep_all};
use crate::places::Places;
use crate::switches::Switches;
use trial::slip::Slip;
use trial::trial::Trial;

/// Takes turns until the trial is void or nothing more can be done.
pub(crate) fn take_turns(trial: &mut Trial<'_>, slip: &Slip, switches: Switches, scratch: &mut [u8])
    requires shown { slip.now.number ≡ trial.old.state.number }
    ensures does { trial.new.state ≡ turns (meaning_of trial.old.table) switches.sum scratch.old (qubits (meaning_of trial.old.table)) trial.old.state }
    ensures table { trial.new.table ≡ trial.old.table }
    ensures scratch { scratch.new ≡ scratch.old }
{
    let mut places = Places {
        check: 0,
        generator: 0,
    };
    // Each turn makes something erased done or shelved, or the trial void.
    for _turn in 0..trial.view().status.len() {
        if trial.view().void {
            break;
        }
        if !turn(trial, slip, switches, scratch, &mut places) {
            break;
        }
    }
}

/// Does the first that can be done, if there is something.
fn turn(
    trial: &mut Trial<'_>,
    slip: &Slip,
    switches: Switches,
    scratch: &mut [u8],
    places: &mut Places,
) -> bool
    requires shown { slip.now.number ≡ trial.old.state.number }
    requires alive { trial.old.state.void ≡ false }
    requires passed { Passed (meaning_of trial.old.table) trial.old.state places.old }
    ensures does { (result, trial.new.state) ≡ taken (meaning_of trial.old.table) trial.old.state (next (meaning_of trial.old.table) switches.sum scratch.old trial.old.state) }
    ensures table { trial.new.table ≡ trial.old.table }
    ensures scratch { scratch.new ≡ scratch.old }
    ensures passed { Passed (meaning_of trial.old.table) trial.new.state places.new }
{
    if switches.peels() && peel_lowest(trial, slip, places) {
        return true;
    }
    if switches.prunes() && prune_lowest(trial, slip, places) {
        return true;
    }
    if switches.solves() && solve_lowest(trial, slip, scratch, places) {
        return true;
    }
    if switches.sweeps() && sweep_all(trial, slip, places) {
        return true;
    }
    false
}

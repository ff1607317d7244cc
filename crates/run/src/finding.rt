//! The stages of a turn, each at the lowest place where it can be done.
ghost use Rattle.std.specs.Prelude.{◌≡◌, false};
ghost use Rattle.rules.specs.Run.{peelable, prunable, solvable, sweepable};
ghost use Rattle.running.specs.Solving.{found_nothing};
ghost use Rattle.running.specs.Turning.{taken};
ghost use Rattle.table.specs.OfTable.{meaning_of};
ghost use Rattle.run.specs.Passed.{Passed};
ghost use Rattle.run.specs.Stages.{is_idle};

use crate::places::{Places, back_to};
use rules::answers::Cluster;
use terms::refusal::Refusal;
use trial::slip::Slip;
use trial::trial::Trial;

/// Peels the lowest dangling check, if there is one.
pub(crate) fn peel_lowest(trial: &mut Trial<'_>, slip: &Slip, places: &mut Places) -> bool
    requires shown { slip.now.number ≡ trial.old.state.number }
    requires passed { Passed (meaning_of trial.old.table) trial.old.state places.old }
    ensures does { (result, trial.new.state) ≡ taken (meaning_of trial.old.table) trial.old.state (peelable (meaning_of trial.old.table) trial.old.state) }
    ensures table { trial.new.table ≡ trial.old.table }
    ensures passed { Passed (meaning_of trial.old.table) trial.new.state places.new }
{
    let Some(check) = trial.dangling_from(places.check) else {
        places.check = u16::MAX;
        return false;
    };
    places.check = check;
    if let Ok(qubit) = trial.peel(slip, check) {
        places.check = back_to(check, trial.dangling_at(qubit));
    }
    true
}

/// Prunes by the lowest generator that has qubits and all of them erased, at its lowest qubit, if there is one.
pub(crate) fn prune_lowest(trial: &mut Trial<'_>, slip: &Slip, places: &mut Places) -> bool
    requires shown { slip.now.number ≡ trial.old.state.number }
    requires passed { Passed (meaning_of trial.old.table) trial.old.state places.old }
    ensures does { (result, trial.new.state) ≡ taken (meaning_of trial.old.table) trial.old.state (prunable (meaning_of trial.old.table) trial.old.state) }
    ensures table { trial.new.table ≡ trial.old.table }
    ensures passed { Passed (meaning_of trial.old.table) trial.new.state places.new }
{
    let Some(generator) = trial.all_erased_from(places.generator) else {
        places.generator = u16::MAX;
        return false;
    };
    let Some(qubit) = trial.lowest_of(generator) else {
        return unreachable();
    };
    places.generator = generator;
    let _ = trial.prune(slip, qubit, &[generator]);
    places.check = back_to(places.check, trial.dangling_at(qubit));
    true
}

/// Solves at the lowest erased qubit that is not refused for several connecting checks or too many unknowns, if there is one.
pub(crate) fn solve_lowest(
    trial: &mut Trial<'_>,
    slip: &Slip,
    scratch: &mut [u8],
    places: &mut Places,
) -> bool
    requires shown { slip.now.number ≡ trial.old.state.number }
    requires passed { Passed (meaning_of trial.old.table) trial.old.state places.old }
    ensures does { (result, trial.new.state) ≡ taken (meaning_of trial.old.table) trial.old.state (solvable (meaning_of trial.old.table) scratch.old trial.old.state) }
    ensures table { trial.new.table ≡ trial.old.table }
    ensures scratch { scratch.new ≡ scratch.old }
    ensures passed { Passed (meaning_of trial.old.table) trial.new.state places.new }
{
    let answer = trial.solve_lowest(slip, scratch);
    if found_nothing(answer) {
        return false;
    }
    places.check = 0;
    true
}

/// Whether there was nothing to solve.
fn found_nothing(answer: Result<Option<Cluster>, Refusal>) -> bool
    ensures { result ≡ found_nothing answer }
{
    matches!(answer, Ok(None))
}

/// Sweeps, unless nothing is erased or too much.
pub(crate) fn sweep_all(trial: &mut Trial<'_>, slip: &Slip, places: &mut Places) -> bool
    requires shown { slip.now.number ≡ trial.old.state.number }
    requires alive { trial.old.state.void ≡ false }
    requires passed { Passed (meaning_of trial.old.table) trial.old.state places.old }
    ensures does { (result, trial.new.state) ≡ taken (meaning_of trial.old.table) trial.old.state (sweepable (meaning_of trial.old.table) trial.old.state) }
    ensures table { trial.new.table ≡ trial.old.table }
    ensures passed { Passed (meaning_of trial.old.table) trial.new.state places.new }
{
    places.check = 0;
    !is_idle(trial.sweep(slip))
}

/// Whether a sweep was refused since nothing is erased or too much.
fn is_idle(answer: Result<(), Refusal>) -> bool
    ensures { result ≡ is_idle answer }
{
    matches!(
        answer,
        Err(Refusal::NothingErased | Refusal::TooManyUnknowns),
    )
}

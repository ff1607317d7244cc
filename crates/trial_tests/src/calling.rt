//! Calls that count on one of the tallies.
ghost use Rattle.std.specs.Prelude.{◌≡◌, ◌⊎◌, ◌+◌, ◌<◌, length, None, nat_lt, position, slice_index_or};
ghost use Rattle.trial_tests.specs.Slips.{out, outs, held_by, OpensOne};

use crate::telling::Answer;
use played::numbers::Numbers;
use std::alloc::{AllocError, Global};
use table::Table;
use terms::refusal::Refusal;
use trial::report::Report;
use trial::slip::Slip;
use trial::tally::Tally;
use trial::trial::Trial;
use trial::trial::closing::NotClosed;
use trial::trial::opening::Opened;

/// Opens on one of the tallies.
// Kept: a list and a place, here, in `Trials::close` and in `churn_at`. Each says what its call does to the sum over all tallies, which `Bench`
// knows; one function with a closure would need a clause that carries what the closure says of one tally to the sum, and be called with three such.
pub(crate) fn open_at<'t>(
    heap: Global,
    table: &'t Table,
    report: Report<'_>,
    tallies: &mut [Tally],
    place: usize,
) -> Result<Opened<'t>, Refusal>
    requires { place < length tallies.old }
    ensures { OpensOne result (outs tallies.old) (outs tallies.new) }
{
    open_on(heap, table, report, &mut tallies[place])
}

fn open_on<'t>(
    heap: Global,
    table: &'t Table,
    report: Report<'_>,
    tally: &mut Tally,
) -> Result<Opened<'t>, Refusal>
    ensures { OpensOne result (out tally.old) (out tally.new) }
{
    Trial::open(heap, table, report, tally)
}

/// Closes with the slip that is held; a refused close puts it back.
pub(crate) fn close_held(trial: &Trial<'_>, held: &mut Option<Slip>, tally: &mut Tally) -> Answer
    ensures count { out tally.new + held_by held.old ≡ out tally.old + held_by held.new }
    ensures kept { (held.new ≡ None) ⊎ (held.new ≡ held.old) }
{
    let Some(slip) = held.take() else {
        return Answer::Unknown;
    };
    match trial.close(slip, tally) {
        Ok(verdict) => Answer::Closed(verdict),
        Err(NotClosed { refusal, slip }) => match held.replace(slip) {
            None => Answer::Refused(refusal),
            Some(_) => unreachable(),
        },
    }
}

/// Closes with the trial's own slip, on the first tally that counts one out.
pub(crate) fn close_somewhere(trial: &Trial<'_>, slip: Slip, tallies: &mut [Tally])
    requires own { slip.number ≡ trial.now.state.number }
    requires count { 0 < outs tallies.old }
    ensures { outs tallies.new + 1 ≡ outs tallies.old }
{
    let place = first_out(tallies);
    close_own(trial, slip, &mut tallies[place]);
}

fn close_own(trial: &Trial<'_>, slip: Slip, tally: &mut Tally)
    requires own { slip.number ≡ trial.now.state.number }
    requires count { 0 < out tally.old }
    ensures { out tally.new + 1 ≡ out tally.old }
{
    match trial.close(slip, tally) {
        Ok(_) => {}
        Err(_) => unreachable(),
    }
}

/// The first tally that counts a slip out.
fn first_out(tallies: &[Tally]) -> usize
    requires { 0 < outs tallies.now }
    ensures place { result < length tallies.now }
    ensures count { (d : Tally) → 0 < out (slice_index_or tallies.now result d) }
{
    match place_out(tallies) {
        Some(place) => place,
        None => unreachable(),
    }
}

fn place_out(tallies: &[Tally]) -> Option<usize>
    ensures { result ≡ position (λ t. nat_lt 0 (out t)) tallies.now }
{
    tallies.iter().position(counts_out)
}

/// Whether the tally counts a slip out.
fn counts_out(tally: &Tally) -> bool
    ensures { result ≡ nat_lt 0 (out tally.now) }
{
    let counts = tally.counts();
    counts.solved + counts.nothing + counts.unfinished < counts.opened
}

/// A scratch buffer of a length, zero but at the places of a list of places and bytes.
pub(crate) fn scratch_of(heap: Global, numbers: &mut Numbers) -> Result<Vec<u8>, AllocError> {
    let len = numbers.place();
    let mut scratch = vec![in heap; 0u8; len]?;
    for _ in 0..numbers.next() {
        let place = numbers.place();
        let byte = numbers.byte();
        if let Some(at) = scratch.get_mut(place) {
            *at = byte;
        }
    }
    Ok(scratch)
}

/// Opens with nothing lost and nothing odd, and closes, so many times, on one of the tallies.
pub(crate) fn churn_at(
    heap: Global,
    table: &Table,
    tallies: &mut [Tally],
    place: usize,
    times: u32,
) -> Answer
    requires { place < length tallies.old }
    ensures { outs tallies.new ≡ outs tallies.old }
{
    churn_on(heap, table, &mut tallies[place], times)
}

fn churn_on(heap: Global, table: &Table, tally: &mut Tally, times: u32) -> Answer
    ensures { out tally.new ≡ out tally.old }
{
    let nothing = Report {
        lost: &[],
        odd: &[],
    };
    for _ in 0..times {
        match open_on(heap, table, nothing, tally) {
            Ok(Opened { trial, slip }) => close_own(&trial, slip, tally),
            Err(refusal) => return Answer::Refused(refusal),
        }
    }
    Answer::Done
}

//! The trials of a sequence and their slips.
ghost use Rattle.std.specs.Prelude.{◌≡◌, ◌+◌, ◌<◌, length, OnOk, vec_len, vec_capacity};
ghost use Rattle.trial_tests.specs.Slips.{outs, held, trial_numbers, Own};

use crate::calling::{close_held, close_somewhere, scratch_of};
use crate::telling::{Answer, Told};
use played::numbers::Numbers;
use run::run;
use std::alloc::{AllocError, Global};
use trial::slip::Slip;
use trial::tally::Tally;
use trial::trial::Trial;
use trial::trial::opening::Opened;

/// Each in the order of its making. Slip k was handed out with trial k; a slip that was spent leaves its place empty.
// Kept: trials and slips are two lists. A line may name the trial of one place and the slip of another, and a close takes the slip out of its
// place while the trial is lent.
pub(crate) struct Trials<'t> {
    trials: Vec<Trial<'t>>,
    slips: Vec<Option<Slip>>,
    ghost as_many: { length slips.items ≡ length trials.items },
    ghost own: { Own slips.items (trial_numbers trials.items) },
}

impl<'t> Trials<'t> {
    pub(crate) fn new(heap: Global) -> Trials<'t>
        ensures { held result.slips.items ≡ 0 }
    {
        Trials {
            trials: Vec::new(heap),
            slips: Vec::new(heap),
        }
    }

    pub(crate) fn get(&self, place: usize) -> Option<&Trial<'t>> {
        self.trials.get(place)
    }

    /// Peels the trial of one place and shows it the slip of another.
    pub(crate) fn peel(&mut self, numbers: &mut Numbers) -> Told
        ensures { self.new.slips.items ≡ self.old.slips.items }
    {
        let place = numbers.place();
        let Some(Some(slip)) = self.slips.get(numbers.place()) else {
            return Told::unknown();
        };
        let Some(trial) = self.trials.get_mut(place) else {
            return Told::unknown();
        };
        let answer = Answer::from(trial.peel(slip, numbers.short()));
        Told::of_trial(answer, place)
    }

    /// Prunes the trial of one place and shows it the slip of another.
    pub(crate) fn prune(&mut self, heap: Global, numbers: &mut Numbers) -> Result<Told, AllocError>
        ensures { self.new.slips.items ≡ self.old.slips.items }
    {
        let place = numbers.place();
        let Some(Some(slip)) = self.slips.get(numbers.place()) else {
            return Ok(Told::unknown());
        };
        let Some(trial) = self.trials.get_mut(place) else {
            return Ok(Told::unknown());
        };
        let qubit = numbers.short();
        let generators = numbers.list(heap)?;
        let answer = Answer::from(trial.prune(slip, qubit, generators.as_slice()));
        Ok(Told::of_trial(answer, place))
    }

    /// Solves in the trial of one place and shows it the slip of another.
    pub(crate) fn solve(&mut self, heap: Global, numbers: &mut Numbers) -> Result<Told, AllocError>
        ensures { self.new.slips.items ≡ self.old.slips.items }
    {
        let place = numbers.place();
        let Some(Some(slip)) = self.slips.get(numbers.place()) else {
            return Ok(Told::unknown());
        };
        let Some(trial) = self.trials.get_mut(place) else {
            return Ok(Told::unknown());
        };
        let qubit = numbers.short();
        let mut scratch = scratch_of(heap, numbers)?;
        let answer = Answer::of_solve(trial.solve(slip, qubit, scratch.as_mut_slice()));
        let mut told = Told::of_trial(answer, place);
        told.scratch = Some(scratch);
        Ok(told)
    }

    /// Runs the trial of one place and shows it the slip of another.
    pub(crate) fn run(&mut self, heap: Global, numbers: &mut Numbers) -> Result<Told, AllocError>
        ensures { self.new.slips.items ≡ self.old.slips.items }
    {
        let place = numbers.place();
        let Some(Some(slip)) = self.slips.get(numbers.place()) else {
            return Ok(Told::unknown());
        };
        let Some(trial) = self.trials.get_mut(place) else {
            return Ok(Told::unknown());
        };
        let switches = numbers.short();
        let mut scratch = scratch_of(heap, numbers)?;
        let answer = Answer::of_run(run(trial, slip, switches, scratch.as_mut_slice()));
        let mut told = Told::of_trial(answer, place);
        told.scratch = Some(scratch);
        Ok(told)
    }

    /// Sweeps the trial of one place and shows it the slip of another.
    pub(crate) fn sweep(&mut self, numbers: &mut Numbers) -> Told
        ensures { self.new.slips.items ≡ self.old.slips.items }
    {
        let place = numbers.place();
        let Some(Some(slip)) = self.slips.get(numbers.place()) else {
            return Told::unknown();
        };
        let Some(trial) = self.trials.get_mut(place) else {
            return Told::unknown();
        };
        let answer = Answer::from(trial.sweep(slip));
        Told::of_trial(answer, place)
    }

    /// Settles the trial of one place and shows it the slip of another.
    pub(crate) fn settle(&mut self, numbers: &mut Numbers) -> Told
        ensures { self.new.slips.items ≡ self.old.slips.items }
    {
        let place = numbers.place();
        let Some(Some(slip)) = self.slips.get(numbers.place()) else {
            return Told::unknown();
        };
        let Some(trial) = self.trials.get_mut(place) else {
            return Told::unknown();
        };
        let answer = Answer::from(trial.settle(slip));
        Told::of_trial(answer, place)
    }

    /// Makes room for one more trial and its slip. It comes before the opening, for a slip cannot be let go for want of memory.
    pub(crate) fn make_room(&mut self) -> Result<(), AllocError>
        ensures slips { OnOk result (vec_len self.new.slips < vec_capacity self.new.slips) }
        ensures trials { OnOk result (vec_len self.new.trials < vec_capacity self.new.trials) }
        ensures same { self.new.slips.items ≡ self.old.slips.items }
    {
        self.slips.reserve(1)?;
        self.trials.reserve(1)?;
        Ok(())
    }

    /// Keeps a trial and its slip, for which there is room.
    pub(crate) fn keep(&mut self, opened: Opened<'t>) -> Answer
        requires number { opened.slip.number ≡ opened.trial.state.number }
        requires slips { vec_len self.old.slips < vec_capacity self.old.slips }
        requires trials { vec_len self.old.trials < vec_capacity self.old.trials }
        ensures { held self.new.slips.items ≡ held self.old.slips.items + 1 }
    {
        let Opened { trial, slip } = opened;
        let number = slip.number();
        self.slips.push_reserved(Some(slip));
        self.trials.push_reserved(trial);
        Answer::Number(number)
    }

    /// Closes a trial with one of the slips, on one of the tallies; no answer where there is no such trial or slip.
    pub(crate) fn close(
        &mut self,
        trial: usize,
        slip: usize,
        tallies: &mut [Tally],
        tally: usize,
    ) -> Option<Answer>
        requires { tally < length tallies.old }
        ensures { outs tallies.new + held self.old.slips.items ≡ outs tallies.old + held self.new.slips.items }
    {
        let trial = self.trials.get(trial)?;
        let held = self.slips.get_mut(slip)?;
        Some(close_held(trial, held, &mut tallies[tally]))
    }

    /// Closes what is left out, the last slip first, each with its own trial.
    pub(crate) fn close_rest(self, tallies: &mut [Tally])
        requires { outs tallies.old ≡ held self.slips.items }
    {
        let Trials { trials, mut slips } = self;
        while let Some(held) = slips.pop() {
            if let Some(slip) = held {
                close_somewhere(&trials[slips.len()], slip, tallies);
            }
        }
        slips.destroy_empty();
    }
}

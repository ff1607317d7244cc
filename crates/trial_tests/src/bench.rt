//! The tallies, trials and slips of a sequence, and the calls on them.
ghost use Rattle.std.specs.Prelude.{◌≡◌};
ghost use Rattle.trial_tests.specs.Slips.{outs, held};

use crate::calling::{churn_at, open_at};
use crate::codes::Made;
use crate::telling::{Answer, Bytes, Counted, Scratch, State, Told};
use crate::trials::Trials;
use played::line::Line;
use played::numbers::Numbers;
use std::alloc::Global;
use trial::report::Report;
use trial::tally::Tally;

/// What the calls of a sequence are on. The slips that the tallies count out are the ones that are held.
pub(crate) struct Bench<'t> {
    codes: &'t [Made],
    tallies: Vec<Tally>,
    trials: Trials<'t>,
    ghost all_held: { outs tallies.items ≡ held trials.slips.items },
}

impl<'t> Bench<'t> {
    pub(crate) fn new(heap: Global, codes: &'t [Made]) -> Bench<'t> {
        Bench {
            codes,
            tallies: Vec::new(heap),
            trials: Trials::new(heap),
        }
    }

    /// Makes the call of a step and prints its line.
    pub(crate) fn play(&mut self, rt: &HostRuntime, step: &Line) -> anyhow::Result<()> {
        let heap = rt.alloc();
        let mut numbers = Numbers::new(step.numbers());
        let told = match step.word() {
            "tally" => self.new_tally()?,
            "open" => self.open(heap, &mut numbers)?,
            "peel" => self.trials.peel(&mut numbers),
            "prune" => self.trials.prune(heap, &mut numbers)?,
            "solve" => self.trials.solve(heap, &mut numbers)?,
            "run" => self.trials.run(heap, &mut numbers)?,
            "sweep" => self.trials.sweep(&mut numbers),
            "settle" => self.trials.settle(&mut numbers),
            "copy_out" => self.copy_out(heap, &mut numbers)?,
            "close" => self.close(&mut numbers),
            "churn" => self.churn(heap, &mut numbers),
            _ => Told::unknown(),
        };
        self.tell(rt, told)
    }

    fn tell(&self, rt: &HostRuntime, told: Told) -> anyhow::Result<()> {
        rt.print(told.answer)?;
        if let Some(bytes) = &told.bytes {
            rt.print(Bytes(bytes.as_slice()))?;
        }
        if let Some(scratch) = &told.scratch {
            rt.print(Scratch(scratch.as_slice()))?;
        }
        if let Some(place) = told.trial {
            if let Some(trial) = self.trials.get(place) {
                rt.print(State(trial.view()))?;
            }
        }
        if let Some(place) = told.tally {
            if let Some(tally) = self.tallies.get(place) {
                rt.print(Counted(tally.counts()))?;
            }
        }
        rt.println("")?;
        Ok(())
    }

    fn new_tally(&mut self) -> anyhow::Result<Told> {
        let place = self.tallies.len();
        self.tallies.push(Tally::new())?;
        Ok(Told::of_tally(Answer::Done, place))
    }

    fn open(&mut self, heap: Global, numbers: &mut Numbers) -> anyhow::Result<Told> {
        let code = numbers.place();
        let place = numbers.place();
        let lost = numbers.list(heap)?;
        let odd = numbers.list(heap)?;
        let Some(Made { table, .. }) = self.codes.get(code) else {
            return Ok(Told::unknown());
        };
        if place >= self.tallies.len() {
            return Ok(Told::unknown());
        }
        self.trials.make_room()?;
        let tallies = self.tallies.as_mut_slice();
        let report = Report {
            lost: lost.as_slice(),
            odd: odd.as_slice(),
        };
        let answer = match open_at(heap, table, report, tallies, place) {
            Ok(opened) => self.trials.keep(opened),
            Err(refusal) => Answer::Refused(refusal),
        };
        Ok(Told::of_tally(answer, place))
    }

    fn copy_out(&mut self, heap: Global, numbers: &mut Numbers) -> anyhow::Result<Told> {
        let place = numbers.place();
        let Some(trial) = self.trials.get(place) else {
            return Ok(Told::unknown());
        };
        let len = numbers.place();
        let fill = numbers.byte();
        let mut buffer = vec![in heap; fill; len]?;
        let answer = Answer::from(trial.copy_out(buffer.as_mut_slice()));
        let mut told = Told::of_trial(answer, place);
        told.bytes = Some(buffer);
        Ok(told)
    }

    fn close(&mut self, numbers: &mut Numbers) -> Told {
        let place = numbers.place();
        let slip_place = numbers.place();
        let tally_place = numbers.place();
        if tally_place >= self.tallies.len() {
            return Told::unknown();
        }
        let tallies = self.tallies.as_mut_slice();
        let Some(answer) = self.trials.close(place, slip_place, tallies, tally_place) else {
            return Told::unknown();
        };
        let mut told = Told::of_trial(answer, place);
        told.tally = Some(tally_place);
        told
    }

    fn churn(&mut self, heap: Global, numbers: &mut Numbers) -> Told {
        let code = numbers.place();
        let place = numbers.place();
        let Some(Made { table, .. }) = self.codes.get(code) else {
            return Told::unknown();
        };
        if place >= self.tallies.len() {
            return Told::unknown();
        }
        let answer = churn_at(
            heap,
            table,
            self.tallies.as_mut_slice(),
            place,
            numbers.next(),
        );
        Told::of_tally(answer, place)
    }

    /// Ends the sequence. Slips that it left out are closed with their own trials: there are as many as the tallies count out, so one of these takes each.
    pub(crate) fn end(self) {
        let Bench {
            codes: _,
            mut tallies,
            trials,
        } = self;
        trials.close_rest(tallies.as_mut_slice());
    }
}

//! The run: again and again the first that can be done, and then the shelf.
#![tactic(auto)]

mod finding;
mod places;
mod settling;
pub mod switches;
mod turning;

ghost use Rattle.std.specs.Prelude.{◌≡◌};
ghost use Rattle.terms.specs.Answering.{Answers};
ghost use Rattle.rules.specs.Run.{run, run_bars};
ghost use Rattle.table.specs.OfTable.{meaning_of};
ghost use Rattle.upkeep.specs.Fault.{fault};
ghost use Rattle.run.specs.Promises.{CountsAsCalls, RunsToEnd, Finishes};

use crate::settling::settle_shelf;
use crate::switches::Switches;
use crate::turning::take_turns;
use marks::scratch_fault;
use rules::answers::Ending;
use terms::refusal::Refusal;
use trial::slip::Slip;
use trial::trial::Trial;

/// Runs a trial: repeats the first that can be done of what the switches name (1 peel, 2 prune, 4 solve, 8 sweep, added), each at the lowest place;
/// and then, with nothing erased, settles until the shelf is empty. It wants a scratch byte for each qubit. A void trial is no refusal.
///
/// Whatever was called before, an accepted run goes on until the trial is void or nothing more can be done; and with all stages on, where at most 256
/// qubits were lost, the trial does not close as unfinished. What a run does, a list of calls does, so what a close then says is true.
pub fn run(
    trial: &mut Trial<'_>,
    slip: &Slip,
    switches: u16,
    scratch: &mut [u8],
) -> Result<Ending, Refusal>
    ensures does { (result, trial.new.state, scratch.new) ≡ run (meaning_of trial.old.table) trial.old.state slip.now.number switches scratch.old }
    ensures table { trial.new.table ≡ trial.old.table }
    ensures calls { CountsAsCalls (meaning_of trial.old.table) trial.old.state switches scratch.old result trial.new.state }
    ensures ends { RunsToEnd (meaning_of trial.old.table) trial.old.state switches scratch.old result trial.new.state }
    ensures full { Finishes (meaning_of trial.old.table) trial.old.state switches result trial.new.state }
{
    let stages = run_fault(trial, slip, switches, scratch)?;
    take_turns(trial, slip, stages, scratch);
    settle_shelf(trial, slip);
    Ok(trial.ending())
}

/// Whether a run is refused, and why; if it is not, its stages.
fn run_fault(
    trial: &Trial<'_>,
    slip: &Slip,
    switches: u16,
    scratch: &[u8],
) -> Result<Switches, Refusal>
    ensures { Answers result (fault (run_bars (meaning_of trial.now.table) trial.now.state slip.now.number switches scratch.now)) (λ s. s.sum ≡ switches) }
{
    let qubits = trial.view().status.len();
    if scratch.len() < qubits {
        return Err(Refusal::BufferTooShort);
    }
    let stages = Switches::of(switches)?;
    scratch_fault(scratch, qubits)?;
    if slip.number() != trial.view().number {
        return Err(Refusal::WrongSlip);
    }
    Ok(stages)
}

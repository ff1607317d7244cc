//! A trial that is run.
ghost use Rattle.std.specs.Prelude.{◌≡◌, ◌==◌, false, Ok};
ghost use Rattle.rules.specs.Run.{run};
ghost use Rattle.rules.specs.Tallies.{closings, close, copy_out};
ghost use Rattle.table.specs.OfTable.{meaning_of};
ghost use Rattle.trial.specs.Closing.{TellsTruth};
ghost use Rattle.terms.specs.Answering.{checked};
ghost use Rattle.upkeep.specs.Fault.{fault};
ghost use Rattle.decoding.specs.Running.{decode_bars, decoded, Decodes, TrueRun};

use code::Code;
use marking::looking::{is_rising, some_past};
use rules::answers::Verdict;
use run::run;
use run::switches::Switches;
use std::alloc::Global;
use table::Table;
use terms::refusal::Refusal;
use trial::report::Report;
use trial::tally::Tally;
use trial::trial::Trial;
use trial::trial::opening::Opened;

/// Opens a trial on a code, runs it with these switches, closes it, and copies the correction out: a byte for each qubit, 1 for a flipped one and 0 for
/// another, into the first bytes of the buffer. The verdict is true of the report.
pub fn decode<C: Code>(
    heap: Global,
    code: &C,
    report: Report<'_>,
    switches: u16,
    buffer: &mut [u8],
    tally: &mut Tally,
) -> Result<Verdict, Refusal>
    ensures does { Decodes result tally.old.counts buffer.old tally.new.counts buffer.new (decoded (C.meaning code.now) tally.old.counts report.entry.lost.now report.entry.odd.now switches buffer.old) }
    ensures truth { TrueRun (C.meaning code.now) tally.old.counts report.entry.lost.now report.entry.odd.now switches result }
{
    let table = Table::of(heap, code)?;
    decode_on(heap, &table, report, switches, buffer, tally)
}

/// The same on a code's table, which serves one report after another.
pub fn decode_on(
    heap: Global,
    table: &Table,
    report: Report<'_>,
    switches: u16,
    buffer: &mut [u8],
    tally: &mut Tally,
) -> Result<Verdict, Refusal>
    ensures does { Decodes result tally.old.counts buffer.old tally.new.counts buffer.new (decoded (meaning_of table.now) tally.old.counts report.entry.lost.now report.entry.odd.now switches buffer.old) }
    ensures truth { TrueRun (meaning_of table.now) tally.old.counts report.entry.lost.now report.entry.odd.now switches result }
{
    decode_fault(table, report, switches, buffer)?;
    let mut scratch = vec![in heap; 0u8; table.qubits() as usize]?;
    let opened = Trial::open(heap, table, report, tally)?;
    Ok(run_through(opened, switches, scratch.as_mut_slice(), buffer, tally))
}

/// Whether a decode is refused for its input, and why.
fn decode_fault(
    table: &Table,
    report: Report<'_>,
    switches: u16,
    buffer: &[u8],
) -> Result<(), Refusal>
    ensures { result ≡ checked (fault (decode_bars (meaning_of table.now) report.entry.lost.now report.entry.odd.now switches buffer.now)) }
{
    if some_past(table.qubits(), report.lost) {
        return Err(Refusal::QubitTooLarge);
    }
    if some_past(table.checks(), report.odd) {
        return Err(Refusal::CheckTooLarge);
    }
    if buffer.len() < table.qubits() as usize {
        return Err(Refusal::BufferTooShort);
    }
    if !is_rising(report.lost) || !is_rising(report.odd) {
        return Err(Refusal::NotRising);
    }
    Switches::of(switches)?;
    Ok(())
}

/// Runs a trial that was opened, copies the correction out and closes it.
fn run_through(
    opened: Opened<'_>,
    switches: u16,
    scratch: &mut [u8],
    buffer: &mut [u8],
    tally: &mut Tally,
) -> Verdict
    requires shown { opened.slip.number ≡ opened.trial.state.number }
    requires out { (tally.old.counts.opened == closings tally.old.counts) ≡ false }
    ensures answer { Ok result ≡ (close (run (meaning_of opened.entry.trial.table) opened.entry.trial.state opened.entry.slip.number switches scratch.old).1 opened.entry.slip.number tally.old.counts).answer }
    ensures tally { tally.new.counts ≡ (close (run (meaning_of opened.entry.trial.table) opened.entry.trial.state opened.entry.slip.number switches scratch.old).1 opened.entry.slip.number tally.old.counts).tally }
    ensures buffer { buffer.new ≡ (copy_out (meaning_of opened.entry.trial.table) (run (meaning_of opened.entry.trial.table) opened.entry.trial.state opened.entry.slip.number switches scratch.old).1 buffer.old).1 }
    ensures truth { TellsTruth (meaning_of opened.entry.trial.table) (run (meaning_of opened.entry.trial.table) opened.entry.trial.state opened.entry.slip.number switches scratch.old).1 (Ok result) }
{
    let Opened { mut trial, slip } = opened;
    let _ = run(&mut trial, &slip, switches, scratch);
    let _ = trial.copy_out(buffer);
    // Kept: `?`, `map_err` and `let .. else` would let go of the slip that the error holds, which a slip forbids.
    match trial.close(slip, tally) {
        Ok(verdict) => verdict,
        Err(_) => unreachable(),
    }
}

//! Whole decodes on product codes for a host: a seed and a report in, what was chosen out. The benchmark calls it.
#![tactic(auto)]

ghost use Rattle.std.specs.Prelude.{◌≡◌};
ghost use Rattle.runs_export.specs.Chosen.{Tells, DecodesIfMade};

use decoding::whole::decode_on;
use product::place::Place;
use product::product::Product;
use product::seed::Seed;
use rules::answers::Verdict;
use std::alloc::Global;
use table::Table;
use terms::refusal::Refusal;
use trial::report::Report;
use trial::tally::Tally;

/// How many qubits' worth of choice a decode reports on the product code of a seed; 0 where it is refused or for want of memory.
/// The table is made once, and the report decoded on it `times` times, and once at least, each time on a new tally.
// Kept: the seed and the report by their parts, as the C interface has them, and 0 in place of a refusal, for C has no `Result`.
#[unsafe(no_mangle)]
pub extern "C" fn runs_of_product(
    heap: Global,
    rows: u16,
    columns: u16,
    ones: &[Place],
    lost: &[u16],
    odd: &[u16],
    switches: u16,
    times: u16,
) -> u16
    ensures { Tells rows columns ones.now lost.now odd.now switches result }
{
    let seed = Seed {
        rows,
        columns,
        ones,
    };
    let report = Report { lost, odd };
    match decoded_times(heap, seed, report, switches, times) {
        Ok(verdict) => verdict.chosen,
        Err(_) => 0,
    }
}

/// The verdict of the last of these decodes.
fn decoded_times(
    heap: Global,
    seed: Seed<'_>,
    report: Report<'_>,
    switches: u16,
    times: u16,
) -> Result<Verdict, Refusal>
    ensures { DecodesIfMade seed.entry report.entry.lost.now report.entry.odd.now switches result }
{
    let code = Product::new(seed)?;
    let table = Table::of(heap, &code)?;
    let qubits = table.qubits() as usize;
    let mut flips = vec![in heap; 0u8; qubits]?;
    for _ in 1..times {
        let _ = decode_on(
            heap,
            &table,
            report,
            switches,
            flips.as_mut_slice(),
            &mut Tally::new(),
        );
    }
    let mut last = vec![in heap; 0u8; qubits]?;
    decode_on(
        heap,
        &table,
        report,
        switches,
        last.as_mut_slice(),
        &mut Tally::new(),
    )
}

//! A trial that only peels.
ghost use Rattle.std.specs.Prelude.{◌≡◌};
ghost use Rattle.decoding.specs.Peeling.{decided, Decides, TrueAfter};

use code::Code;
use rules::answers::Verdict;
use std::alloc::Global;
use table::Table;
use terms::refusal::Refusal;
use trial::report::Report;
use trial::tally::Tally;
use trial::trial::Trial;
use trial::trial::opening::Opened;

/// Opens a trial on a code, peels the listed checks one after another, refused or not, and closes it.
/// Whatever the list, the verdict is true of the report.
pub fn decode_by_peeling<C: Code>(
    heap: Global,
    code: &C,
    report: Report<'_>,
    checks: &[u16],
    tally: &mut Tally,
) -> Result<Verdict, Refusal>
    ensures does { Decides result tally.old.counts tally.new.counts (decided (C.meaning code.now) tally.old.counts report.entry.lost.now report.entry.odd.now checks.now) }
    ensures truth { TrueAfter (C.meaning code.now) tally.old.counts report.entry.lost.now report.entry.odd.now checks.now result }
{
    let table = Table::of(heap, code)?;
    let Opened { mut trial, slip } = Trial::open(heap, &table, report, tally)?;
    for c in checks {
        let _ = trial.peel(&slip, *c);
    }
    // Kept: `?`, `map_err` and `let .. else` would let go of the slip that the error holds, which a slip forbids.
    match trial.close(slip, tally) {
        Ok(verdict) => Ok(verdict),
        Err(_) => unreachable(),
    }
}

//! Elimination over bits for a host: a system in, its slack out. The benchmark calls it.
#![tactic(auto)]

ghost use Rattle.std.specs.Prelude.{◌≤◌, true, false, replicate, IfOk, IfSome};
ghost use Rattle.linear.specs.Field.{bits};
ghost use Rattle.linear.specs.System.{solutions};
ghost use Rattle.elimination.specs.Calls.{Power};
ghost use Rattle.elimination_export.specs.Stream.{rows_of, Tells};

use elimination::Elimination;
use std::alloc::Global;
use terms::refusal::Refusal;

/// The word that ends an even check: it and any above are the number of no unknown.
const EVEN: u16 = 65534;

/// The word that ends an odd check.
const ODD: u16 = 65535;

/// The slack of a system, plus 2; 1 where it has no solution; 0 for want of memory or more than 256 unknowns.
/// A check is the numbers of its unknowns, then 65535 if it is odd or 65534 if it is even. The system is solved `times` times, in the same tables.
// Kept: the system by its parts, the codes of the answer and the two words that end a check, as the C interface has them.
#[unsafe(no_mangle)]
pub extern "C" fn eliminate(heap: Global, unknowns: u16, checks: &[u16], times: u16) -> u16
    ensures { Tells unknowns checks.now result }
{
    match solved_times(heap, unknowns, checks, times) {
        Ok(Some(slack)) => slack + 2,
        Ok(None) => 1,
        Err(_) => 0,
    }
}

/// The slack of a system, solved this many times, and once at least.
fn solved_times(
    heap: Global,
    unknowns: u16,
    checks: &[u16],
    times: u16,
) -> Result<Option<u16>, Refusal>
    ensures few { IfOk result (λ slack. IfSome slack (λ s. s ≤ 256)) }
    ensures power { IfOk result (Power bits (solutions bits (replicate unknowns true) (rows_of unknowns (replicate unknowns false) checks.now))) }
{
    let mut system = Elimination::new(heap)?;
    for _ in 1..times {
        solved(&mut system, unknowns, checks)?;
    }
    solved(&mut system, unknowns, checks)
}

/// The slack of a system, solved in these tables; none where it has no solution.
fn solved(
    system: &mut Elimination<bool>,
    unknowns: u16,
    checks: &[u16],
) -> Result<Option<u16>, Refusal>
    ensures few { IfOk result (λ slack. IfSome slack (λ s. s ≤ 256)) }
    ensures power { IfOk result (Power bits (solutions bits (replicate unknowns true) (rows_of unknowns (replicate unknowns false) checks.now))) }
{
    system.begin(unknowns)?;
    for word in checks {
        if *word < EVEN {
            let _ = system.put(*word, true);
        } else {
            system.add(*word == ODD);
        }
    }
    if !system.solve() {
        return Ok(None);
    }
    Ok(system.slack())
}

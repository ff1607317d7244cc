//! Plays recorded calls to trials: reads one a line from standard input, and writes what came of it on a line of its own.
//!
//! A line that begins with `#` is a heading; it is written as it is, and a new sequence starts from nothing. In a sequence codes, tallies and
//! trials are numbered from 0 as they are made; slip k is handed out with trial k. The steps about codes come first, since trials borrow tables.
//!
//! - `product r n a b ..`, and `listed` with a count and the sides, a count and the checks, a count and the generators (each row as its length
//!   and its qubits), and `turned CODE` make a code: `ok` and its three sizes, or `refused` and a number.
//! - `side CODE q`, `check_size CODE k`, `generator_size CODE k`, `check_qubit CODE k i` and `generator_qubit CODE k i` ask its table.
//! - `tally` makes a tally; `churn CODE TALLY TIMES` opens and closes so many times.
//! - `open CODE TALLY`, a count and the lost qubits, a count and the odd checks: the slip's number.
//! - `peel TRIAL SLIP CHECK`; `prune TRIAL SLIP QUBIT`, a count and the generators; `solve TRIAL SLIP QUBIT`, the length of a scratch buffer, a count
//!   and the places that are not zero, each with its byte: `shelved` or `flipped`, and after it these places again; `run TRIAL SLIP SWITCHES` and a
//!   scratch buffer likewise: `void`, `emptied` or `stopped`, and these places again; `sweep TRIAL SLIP`; `settle TRIAL SLIP`; `close TRIAL SLIP TALLY`: the verdict; `copy_out TRIAL LEN FILL`: all bytes of a buffer of that
//!   length, filled with that byte before.
//!
//! After the answer to a call comes all of its trial, and the counts of its tally. A further call is a further word in `Bench::play`.
#![tactic(auto)]

mod bench;
mod calling;
mod codes;
mod reading;
mod telling;
mod trials;

use bench::Bench;
use codes::Codes;
use played::line::Line;
use reading::{Sequence, read_sequences};

fn main(rt: HostRuntime) -> anyhow::Result<()> {
    let sequences = read_sequences(&rt)?;
    for sequence in sequences.iter() {
        let (codes, calls) = play_codes(&rt, sequence)?;
        let mut bench = Bench::new(rt.alloc(), codes.made());
        let played = play_calls(&rt, calls.as_slice(), &mut bench);
        bench.end();
        played?;
    }
    Ok(())
}

/// Plays the steps about codes, and gives the others back.
fn play_codes<'s>(
    rt: &HostRuntime,
    sequence: &'s Sequence,
) -> anyhow::Result<(Codes, Vec<&'s Line>)> {
    let heap = rt.alloc();
    rt.println(sequence.heading.as_str())?;
    let mut codes = Codes::new(heap);
    let mut calls = Vec::new(heap);
    for step in sequence.steps.iter() {
        match codes.play(heap, step)? {
            Some(answer) => rt.println(answer)?,
            None => calls.push(step)?,
        }
    }
    Ok((codes, calls))
}

fn play_calls(rt: &HostRuntime, calls: &[&Line], bench: &mut Bench) -> anyhow::Result<()> {
    for call in calls {
        bench.play(rt, *call)?;
    }
    Ok(())
}

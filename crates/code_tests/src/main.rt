//! Plays questions to codes: reads one a line from standard input, and writes each answer on a line of its own.
//!
//! `product r n a b ..`, `listed` with a count and the sides, a count and the checks, a count and the generators (each row as its length and its
//! qubits), and `turned` make the code that is held from then on, and answer `ok` with its three sizes or `refused` with a number. A refused
//! making keeps the code that was held. `side q`, `check_size k`, `generator_size k`, `check_qubit k i` and `generator_qubit k i` ask it.
#![tactic(auto)]

mod held;

use held::Held;
use played::line::Line;
use std::io::{BufRead, BufReader};

fn main(rt: HostRuntime) -> anyhow::Result<()> {
    let heap = rt.alloc();
    let mut held = Held::Nothing;
    for line in BufReader::new(heap, rt.stdin())?.lines(heap) {
        let line = line?;
        let question = Line::read(heap, line.as_str(), u32::from(u16::MAX))?;
        let (now, answer) = held.play(heap, &question)?;
        held = now;
        rt.println(answer)?;
    }
    Ok(())
}

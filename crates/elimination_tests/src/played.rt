//! A system played to elimination, with every answer compared.
use super::small::{System, bit, power};
use elimination::Elimination;

#[derive(Clone, Copy, Default)]
pub(crate) struct Counts {
    pub(crate) systems: u32,
    pub(crate) solved: u32,
    pub(crate) independent: u32,
    pub(crate) wrong: u32,
}

impl Counts {
    fn expect(&mut self, holds: bool) {
        if !holds {
            self.wrong = self.wrong.wrapping_add(1);
        }
    }
}

/// Writes the check of these unknowns.
fn write(table: &mut Elimination<bool>, unknowns: u16, mask: u32) {
    for place in 0..unknowns {
        if bit(mask, unknowns - 1 - place) {
            let _ = table.put(place, true);
        }
    }
}

/// The subset that a list of flags is, the first flag the most significant.
fn subset(flags: &[bool]) -> u32 {
    flags.iter().fold(
        0u32,
        |x, flag| x.wrapping_mul(2).wrapping_add(u32::from(*flag)),
    )
}

/// Solves the system, and asks for each row whether it is independent.
pub(crate) fn play(table: &mut Elimination<bool>, system: System, counts: &mut Counts) {
    let unknowns = system.unknowns;
    counts.systems = counts.systems.wrapping_add(1);
    counts.expect(table.begin(unknowns).is_ok());
    for i in 0..system.checks {
        write(table, unknowns, system.left(i));
        table.add(system.right(i));
    }
    for row in 0..power(unknowns) {
        write(table, unknowns, row);
        let independent = table.is_independent();
        if independent {
            counts.independent = counts.independent.wrapping_add(1);
        }
        counts.expect(independent == system.independent(row));
    }
    let (count, least) = system.solutions();
    let solved = table.solve();
    if solved {
        counts.solved = counts.solved.wrapping_add(1);
    }
    match least {
        Some(x) => {
            counts.expect(solved && subset(table.least()) == x);
            counts.expect(table.slack().is_some_and(|slack| power(slack) == count));
        }
        None => counts.expect(!solved && table.slack().is_none()),
    }
}

/// How many answers differ, of a system that was begun: each unknown and the next are odd, and the last one is odd.
pub(crate) fn chain(table: &mut Elimination<bool>, unknowns: u16) -> u32 {
    let mut counts = Counts::default();
    for place in 1..unknowns {
        counts.expect(table.put(place - 1, true).is_ok());
        counts.expect(table.put(place, true).is_ok());
        table.add(true);
    }
    counts.expect(table.put(unknowns, true).is_err());
    counts.expect(table.slack() == Some(1));
    counts.expect(table.put(0, true).is_ok());
    counts.expect(table.is_independent());
    counts.expect(table.put(0, true).is_ok());
    table.add(false);
    counts.expect(table.solve() && table.slack() == Some(0));
    for (place, flag) in table.least().iter().enumerate() {
        counts.expect(*flag == (place % 2 == 1));
    }
    counts.expect(table.put(0, true).is_ok());
    table.add(true);
    counts.expect(!table.solve());
    counts.wrong
}

//! The faults of listed tables.
ghost use Rattle.std.specs.Prelude.{◌≡◌, ℕ, Bool, List, ◌++◌, length, is_err};
ghost use Rattle.std.specs.List.{list_any};
ghost use Rattle.std.specs.Fn.{FnReturnsAt};
ghost use Rattle.terms.specs.Answering.{checked};
ghost use Rattle.terms.specs.Rows.{side_numbered};
ghost use Rattle.sets.specs.Sets.{repeats};
ghost use Rattle.listed.specs.Fault.{too_large, outside_limits, listed_fault};
ghost use Rattle.listed.specs.Shares.{shares_odd};

use rows::Rows;
use terms::refusal::Refusal;
use terms::row::Side;

/// The tables of a code, which may have faults.
#[derive(Clone, Copy)]
pub(crate) struct Tables<'a> {
    pub(crate) checks: &'a Rows,
    pub(crate) generators: &'a Rows,
    pub(crate) sides: &'a [u8],
}

impl<'a> Tables<'a> {
    /// Refuses tables with a fault, by the first one.
    pub(crate) fn check(&self) -> Result<(), Refusal>
        ensures { result ≡ checked (listed_fault self.now.checks.now self.now.generators.now self.now.sides.now) }
    {
        if self.outside_limits() {
            return Err(Refusal::OutsideLimits);
        }
        if self.some_too_large() {
            return Err(Refusal::QubitTooLarge);
        }
        if self.some_repeats() {
            return Err(Refusal::NotRising);
        }
        // From here on each row names a qubit once, so that counting its places counts its qubits.
        if self.law_fails() {
            return Err(Refusal::LawFails);
        }
        Ok(())
    }

    /// Whether a size or a side is outside its limits.
    fn outside_limits(&self) -> bool
        ensures { result ≡ outside_limits self.now.checks.now self.now.generators.now self.now.sides.now }
    {
        self.sides.is_empty()
            || self.sides.len() > 2048
            || self.checks.len() > 256
            || self.generators.len() > 256
            || self.some_row(|row| row.len() > 16)
            || self.some_unsided()
    }

    /// Whether a number is that of no side.
    fn some_unsided(&self) -> bool
        ensures { result ≡ list_any (λ n. is_err (side_numbered n)) self.now.sides.now }
    {
        self.sides.iter().any(|side| Side::try_from(*side).is_err())
    }

    /// Whether a row names a number of no qubit.
    fn some_too_large(&self) -> bool
        ensures { result ≡ list_any (too_large (length self.now.sides.now)) (self.now.checks.now ++ self.now.generators.now) }
    {
        let qubits = self.sides.len();
        self.some_row(|row| too_large(row, qubits))
    }

    /// Whether a row names a number twice.
    fn some_repeats(&self) -> bool
        ensures { result ≡ list_any repeats (self.now.checks.now ++ self.now.generators.now) }
    {
        self.some_row(|row| repeats(row))
    }

    /// Whether a check or a generator passes the test.
    fn some_row<F: Fn(&[u16]) -> bool>(&self, test: F) -> bool
        requires { F.IsAlwaysCallable test }
        ensures { (p : List ℕ → Bool) → ((row : List ℕ) (b : Bool) → FnReturnsAt F.Fn test row b → b ≡ p row) → result ≡ list_any p (self.now.checks.now ++ self.now.generators.now) }
    {
        self.checks
            .iter()
            .chain(self.generators.iter())
            .any(|row| test(row))
    }

    /// Whether a check and a generator share an odd number of qubits.
    fn law_fails(&self) -> bool
        ensures { result ≡ list_any (λ c. list_any (shares_odd c) self.now.generators.now) self.now.checks.now }
    {
        self.checks.iter().any(|check| self.shares_odd_with(check))
    }

    /// Whether the check shares an odd number of qubits with a generator.
    fn shares_odd_with(&self, check: &[u16]) -> bool
        ensures { result ≡ list_any (shares_odd check.now) self.now.generators.now }
    {
        self.generators
            .iter()
            .any(|generator| shares_odd(check, generator))
    }
}

fn too_large(row: &[u16], qubits: usize) -> bool
    ensures { result ≡ too_large qubits row.now }
{
    row.iter().any(|q| *q as usize >= qubits)
}

/// Whether a row names a number twice.
fn repeats(row: &[u16]) -> bool
    ensures { result ≡ repeats row.now }
{
    // Kept: a chain over `enumerate` counts places by hand again (`row[k + 1..]`), and its goal `returns` stays open by `search`; through
    // `is_some_and` the closure would be in the cycle of calls, and need a clause and a measure of its own.
    match row.split_first() {
        Some((q, later)) => later.contains(q) || repeats(later),
        None => false,
    }
}

fn shares_odd(check: &[u16], generator: &[u16]) -> bool
    ensures { result ≡ shares_odd check.now generator.now }
{
    check.iter().filter(|q| generator.contains(q)).count() % 2 == 1
}

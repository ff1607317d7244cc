//! Stating a system: its unknowns, and one check after another.
ghost use Rattle.std.specs.Prelude.{◌≡◌, ◌≤◌, ◌<◌, Bool, true, false, List, [], length, replicate, None, Err, MatchOption, slice_index, slice_set};
ghost use Rattle.terms.specs.Answering.{Answers, AnswersIfMemory};
ghost use Rattle.terms.specs.declared.refusal.Refusal.TheVariants.{NotRising};
ghost use Rattle.sets.specs.Sets.{has, row, among as listed, size, empty, elements};
ghost use Rattle.meaning.specs.Meaning.{Meaning};
ghost use Rattle.linear.specs.Field.{bits};
ghost use Rattle.linear.specs.System.{Row as Equation};
ghost use Rattle.linear.specs.Compress.{compress};
ghost use Rattle.rules.specs.Reports.{rises};
ghost use Rattle.elimination.specs.Holds.{Holds};
ghost use Rattle.elimination.specs.Calls.{too_many, KeptIfRefused};
ghost use Rattle.table.specs.OfTable.{meaning_of};
ghost use Rattle.upkeep.specs.Changed.{marked};
ghost use Rattle.systems.specs.Stated.{Stated, unknowns_of};

use super::{CHECKS, MOST, QUBITS, System};
use crate::placing::place_each;
use elimination::Elimination;
use marking::changing::take_out;
use marking::looking::{is_marked, is_rising};
use std::alloc::Global;
use table::Table;
use terms::refusal::Refusal;
use terms::row::Row;

impl System {
    /// Room for 256 unknowns, with no unknowns and no checks.
    pub fn new(heap: Global) -> Result<System, Refusal>
        ensures { AnswersIfMemory result None (λ e. (M : Meaning) (k odds : List Bool) → elements k ≡ [] → length odds ≡ length M.checks → Stated e M k (empty (length M.checks)) odds) }
    {
        Ok(System {
            elimination: Elimination::new(heap)?,
            unknowns: vec![in heap; 0; MOST]?,
            count: 0,
            places: vec![in heap; None; QUBITS]?,
            met: vec![in heap; false; CHECKS]?,
        })
    }

    /// Starts a system over these unknowns, which rise, with no checks. More than 256 are refused.
    pub fn begin(&mut self, qubits: &[u16]) -> Result<(), Refusal>
        ensures begun { (k : List Bool) → elements k ≡ qubits.now → Answers result (too_many (size k)) (λ _. (M : Meaning) (odds : List Bool) → length odds ≡ length M.checks → Stated self.new M k (empty (length M.checks)) odds) }
        ensures falling { rises qubits.now ≡ false → result ≡ Err NotRising }
        ensures kept { KeptIfRefused result self.old self.new }
    {
        if !is_rising(qubits) {
            return Err(Refusal::NotRising);
        }
        let count = qubits.len();
        if count > MOST {
            return Err(Refusal::TooManyUnknowns);
        }
        take_out(&self.unknowns[0..self.count], self.places.as_mut_slice());
        // Kept: `0..count`, for after `..count` nothing is known of the vector.
        self.unknowns[0..count].copy_from_slice(qubits);
        self.count = count;
        place_each(qubits, self.places.as_mut_slice());
        self.elimination.begin(count as u16)
    }

    /// Adds a check, odd or even. One that the code does not have says nothing, and one that was added before, as odd or as even as now, says nothing new.
    pub fn add(&mut self, table: &Table, check: u16, odd: bool)
        ensures { (k among odds : List Bool) → odd ≡ has odds check → Stated self.old (meaning_of table.now) k among odds → Stated self.new (meaning_of table.now) k (slice_set among check true) odds }
    {
        self.state(table, check, odd);
    }

    /// The same, which leaves the marks as they are.
    pub(crate) fn state(&mut self, table: &Table, check: u16, odd: bool)
        ensures stated { (k among odds : List Bool) → odd ≡ has odds check → Stated self.old (meaning_of table.now) k among odds → Stated self.new (meaning_of table.now) k (slice_set among check true) odds }
        ensures unknowns { unknowns_of self.new ≡ unknowns_of self.old }
        ensures met { self.new.met.items ≡ self.old.met.items }
    {
        self.write(table, check);
        self.elimination.add(odd);
    }

    /// Adds these checks, each odd if it is marked so.
    pub fn add_all(&mut self, table: &Table, checks: &[u16], odd: &[bool])
        ensures { (k among : List Bool) → Stated self.old (meaning_of table.now) k among odd.now → Stated self.new (meaning_of table.now) k (marked checks.now among) odd.now }
    {
        for check in checks {
            self.add(table, *check, is_marked(*check, odd));
        }
    }

    /// Writes the coefficients of a check at the unknowns.
    pub(crate) fn write(&mut self, table: &Table, check: u16)
        ensures written { (k : List Bool) (rows : List (Equation Bool)) → elements k ≡ unknowns_of self.old → Holds bits self.old.elimination (size k) rows (replicate (size k) false) → Holds bits self.new.elimination (size k) rows (compress bits k (row (meaning_of table.now).checks check)) }
        ensures unknowns { unknowns_of self.new ≡ unknowns_of self.old }
        ensures met { self.new.met.items ≡ self.old.met.items }
    {
        for qubit in table.row(Row::Check(check)) {
            if let Some(place) = self.place(*qubit) {
                // no place is refused, since it is that of an unknown
                let _ = self.elimination.put(place, true);
            }
        }
    }
}

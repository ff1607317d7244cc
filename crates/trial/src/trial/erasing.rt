//! Which qubits are erased, and how many of them each check holds.
ghost use Rattle.std.specs.Prelude.{◌≡◌, ◌<◌, ◌≤◌, ◌==◌, false, length, replicate, IfOk, slice_set, vec_capacity};
ghost use Rattle.sets.specs.Sets.{row, meet, size, elements};
ghost use Rattle.meaning.specs.Meaning.{qubits};
ghost use Rattle.rules.specs.declared.answers.Status.TheVariants.{Erased, Shelved, Done};
ghost use Rattle.rules.specs.Calls.{some_outside};
ghost use Rattle.rules.specs.Reports.{some_past};
ghost use Rattle.table.specs.OfTable.{meaning_of};
ghost use Rattle.upkeep.specs.Changed.{changed};
ghost use Rattle.upkeep.specs.Counts.{counts_in};
ghost use Rattle.upkeep.specs.Statuses.{is_erased, erased_of};

use marking::changing::{lower, raise};
use marking::statuses::{all_erased, is_erased};
use rules::answers::Status;
use std::alloc::{AllocError, Global};
use table::Table;
use terms::row::Row;

/// The status of each qubit of a table's code, and how many erased qubits each check holds.
#[derive(Drop)]
pub(crate) struct Erasures<'t> {
    pub(crate) table: &'t Table,
    pub(crate) status: Vec<Status>,
    /// For each check, how many erased qubits it holds, so that a dangling check is found without reading its row.
    held: Vec<u16>,
    ghost fit: { length status.items ≡ qubits (meaning_of table.now) },
    ghost counts: { held.items ≡ counts_in (meaning_of table.now).checks (erased_of status.items) },
}

impl<'t> Erasures<'t> {
    /// The lost qubits are erased, and no others.
    pub(crate) fn of(
        heap: Global,
        table: &'t Table,
        lost: &[u16],
    ) -> Result<Erasures<'t>, AllocError>
        requires { some_past (qubits (meaning_of table.now)) lost.now ≡ false }
        ensures { IfOk result (λ e. (e.table.now ≡ table.now) × (e.status.items ≡ changed Done (λ _. Erased) lost.now (replicate (qubits (meaning_of table.now)) Done))) }
    {
        let mut erasures = Erasures::none(heap, table)?;
        for q in lost {
            erasures.erase(*q);
        }
        Ok(erasures)
    }

    fn none(heap: Global, table: &'t Table) -> Result<Erasures<'t>, AllocError>
        ensures { IfOk result (λ e. (e.table.now ≡ table.now) × (e.status.items ≡ replicate (qubits (meaning_of table.now)) Done)) }
    {
        let status = vec![in heap; Status::Done; table.qubits() as usize]?;
        let held = vec![in heap; 0u16; table.checks() as usize]?;
        Ok(Erasures {
            table,
            status,
            held,
        })
    }
}

impl Erasures<'_> {
    /// Whether a check holds exactly one erased qubit.
    pub(crate) fn holds_one(&self, check: u16) -> bool
        ensures { result ≡ (size (meet (row (meaning_of self.now.table.now).checks check) (erased_of self.now.status.items)) == 1) }
    {
        self.held.get(check as usize) == Some(&1)
    }

    /// Whether one of these generators has a qubit that is not erased.
    pub(crate) fn some_outside(&self, generators: &[u16]) -> bool
        requires { some_past (length (meaning_of self.now.table.now).generators) generators.now ≡ false }
        ensures { result ≡ some_outside (meaning_of self.now.table.now).generators (erased_of self.now.status.items) generators.now }
    {
        generators.iter().any(|g| !all_erased(
            self.table.row(Row::Generator(*g)),
            self.status.as_slice(),
        ))
    }

    /// Lists the erased qubits, rising, in a list that has room for all qubits.
    pub(crate) fn list(&self, list: &mut Vec<u16>)
        requires { length self.now.status.items ≤ vec_capacity list.old }
        ensures lists { list.new.items ≡ elements (erased_of self.now.status.items) }
        ensures capacity { vec_capacity list.new ≡ vec_capacity list.old }
    {
        list.clear();
        for (q, status) in self.status.iter().enumerate() {
            if *status == Status::Erased {
                list.push_reserved(q as u16);
            }
        }
    }

    /// A qubit gets a status other than erased, and counts in its checks no more.
    pub(crate) fn take_out(&mut self, qubit: u16, status: Status)
        requires low { qubit < length self.old.status.items }
        requires out { is_erased status ≡ false }
        ensures does { self.new.status.items ≡ slice_set self.old.status.items qubit status }
        ensures table { self.new.table.now ≡ self.old.table.now }
    {
        let q = qubit as usize;
        let counted = if self.status[q] == Status::Erased {
            self.table.checks_at(qubit)
        } else {
            &[]
        };
        lower(counted, self.held.as_mut_slice());
        self.status[q] = status;
    }

    /// The listed qubits are shelved.
    pub(crate) fn shelve_each(&mut self, list: &[u16])
        requires { some_past (qubits (meaning_of self.old.table.now)) list.now ≡ false }
        ensures does { self.new.status.items ≡ changed Done (λ _. Shelved) list.now self.old.status.items }
        ensures table { self.new.table.now ≡ self.old.table.now }
    {
        for q in list {
            self.take_out(*q, Status::Shelved);
        }
    }

    /// A qubit is erased, and counts in its checks from then on.
    fn erase(&mut self, qubit: u16)
        requires { qubit < length self.old.status.items }
        ensures erases { self.new.status.items ≡ slice_set self.old.status.items qubit Erased }
        ensures table { self.new.table.now ≡ self.old.table.now }
    {
        if is_erased(qubit, self.status.as_slice()) {
            return;
        }
        self.status[qubit as usize] = Status::Erased;
        raise(self.table.checks_at(qubit), self.held.as_mut_slice());
    }
}

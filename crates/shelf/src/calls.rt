//! Making a shelf, and what is done with it.
ghost use Rattle.std.specs.Prelude.{◌≡◌, ◌==◌, [], length, is_ok, option_map, slice_get, if◌then◌else◌, IfOk};
ghost use Rattle.shelf.specs.Shelving.{has_room, with_entry, without_newest};
ghost use Rattle.shelf.specs.Lent.{told};

use super::{Entry, NoRoom, Record, Shelf};
use stack::{pop, push};
use std::alloc::{AllocError, Global};

impl Shelf {
    /// An empty shelf with room for as many members as a code has qubits, and for as many entries as it has checks. No later call takes memory.
    pub fn new(heap: Global, qubits: u16, checks: u16) -> Result<Shelf, AllocError>
        ensures { IfOk result (λ s. s ≡ record { entries = []; qubits = qubits; checks = checks }) }
    {
        let none = Record { count: 0, check: 0 };
        Ok(Shelf {
            members: vec![in heap; 0; qubits as usize]?,
            filled: 0,
            records: vec![in heap; none; checks as usize]?,
            height: 0,
        })
    }

    /// Puts an entry on top. Where there is no room for it or for all its members, nothing changes.
    pub fn put(&mut self, members: &[u16], check: u16) -> Result<(), NoRoom>
        ensures test { is_ok result ≡ has_room self.old members.now }
        ensures entries { self.new ≡ (if is_ok result then with_entry self.old members.now check else self.old) }
    {
        // Members above `filled` are nobody's: they count only once the record stands.
        let mut filled = self.filled;
        for q in members {
            push(&mut self.members, &mut filled, *q).or(Err(NoRoom))?;
        }
        let record = Record {
            count: members.len() as u16,
            check,
        };
        push(&mut self.records, &mut self.height, record).or(Err(NoRoom))?;
        self.filled = filled;
        Ok(())
    }

    /// The newest entry, if there is one. It stays where it is.
    pub fn newest(&self) -> Option<Entry<'_>>
        ensures { option_map told result ≡ slice_get self.now.entries 0 }
    {
        self.get(0)
    }

    /// The entry that so many newer ones stand on, if there is one. It stays where it is.
    pub fn get(&self, newer: usize) -> Option<Entry<'_>>
        ensures { option_map told result ≡ slice_get self.now.entries newer }
    {
        // Copies, so that the records are read and not taken.
        let mut height = self.height;
        let mut end = self.filled;
        for _ in 0..newer {
            let top = pop(&self.records, &mut height)?;
            end -= usize::from(top.count);
        }
        let top = pop(&self.records, &mut height)?;
        let start = end - usize::from(top.count);
        Some(Entry {
            members: &self.members[start..end],
            check: top.check,
        })
    }

    /// Takes the newest entry off, if there is one.
    pub fn drop_newest(&mut self)
        ensures { self.new ≡ without_newest self.old }
    {
        if let Some(top) = pop(&self.records, &mut self.height) {
            // Members come off one by one, as they went on, so that there is one text for it.
            for _ in 0..top.count {
                pop(&self.members, &mut self.filled);
            }
        }
    }

    /// How many entries there are.
    pub fn len(&self) -> usize
        ensures { result ≡ length self.now.entries }
    {
        self.height
    }

    /// Whether there is no entry.
    pub fn is_empty(&self) -> bool
        ensures { result ≡ (length self.now.entries == 0) }
    {
        self.len() == 0
    }
}

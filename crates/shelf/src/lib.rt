//! The shelf of a trial: clusters that wait to be settled, each with the check that was closed for it, newest on top. Its memory is taken when it is made.
#![tactic(auto)]

use std::marker::Model;

mod calls;

/// What is kept of an entry beside its members: how many they are, and its check.
#[derive(Clone, Copy)]
struct Record {
    count: u16,
    check: u16,
}

/// The clusters on the shelf. The members of all entries stand end to end, those of the newest last; so do the records.
// Kept: two stacks in place of one of entries that own their members, since no call but `new` may want memory.
#[derive(Drop)]
pub struct Shelf {
    members: Vec<u16>,
    filled: usize,
    records: Vec<Record>,
    height: usize,
}

impl Model for Shelf {
    ghost use Rattle.shelf.specs.Shelving.{Shelving};

    // the entries, newest first, and the room that there is
    ghost Value = { Shelving };

    ghost use Rattle.shelf.specs.Stacked.{seen, Stacked};

    ghost view = { λ s. seen s.records.items s.height s.members.items s.filled };

    ghost invariant = { λ s. Stacked s.records.items s.height s.members.items s.filled };
}

/// An entry as it is lent: the numbers of the cluster's qubits in the order in which they were put, and the check that was closed for it.
#[derive(Clone, Copy, PartialEq, Eq, Debug)]
pub struct Entry<'a> {
    pub members: &'a [u16],
    pub check: u16,
}

/// The shelf has no room for an entry, or not for all its members.
#[derive(Clone, Copy, PartialEq, Eq, Debug)]
pub struct NoRoom;

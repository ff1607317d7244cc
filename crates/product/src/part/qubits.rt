//! Asking a part of a row.
ghost use Rattle.std.specs.Prelude.{◌≡◌, ◌+◌, ◌≤◌, ◌++◌, length, is_ok, if◌then◌else◌, vec_len, vec_capacity, OnOk, nat_lt, slice_index};
ghost use Rattle.std.specs.Iterator.{YieldsFirst, item_count};
ghost use Rattle.meaning.specs.Telling.{within_range};
ghost use Rattle.product.specs.Parts.{part_told, parts_told};

use super::{Part, Parts};
use std::alloc::AllocError;

impl Part {
    /// A part with the given ones.
    pub(crate) fn new(word: u32, first: u16, step: u16) -> Part
        requires { (first ≤ 2048) × (step ≤ 32) }
        ensures word { result.word ≡ word }
        ensures first { result.first ≡ first }
        ensures step { result.step ≡ step }
    {
        Part { word, first, step }
    }

    /// How many qubits the part has.
    pub(crate) fn len(&self) -> u16
        ensures value { result ≡ length (part_told self.now) }
        ensures bound { result ≤ 32 }
    {
        self.word.count_ones() as u16
    }

    /// The part's k-th qubit, from 0. Clearing the lowest one k times beats a scan of all places.
    pub(crate) fn qubit(mut self, k: u16) -> Option<u16>
        ensures { result ≡ within_range (nat_lt k (length (part_told self))) (slice_index (part_told self) k) }
    {
        self.nth(k as usize)
    }

    /// Appends the part's qubits to a list that has room for them.
    pub(crate) fn tell(self, list: &mut Vec<u16>)
        requires { vec_len list.old + length (part_told self) ≤ vec_capacity list.old }
        ensures items { list.new.items ≡ list.old.items ++ part_told self }
        ensures capacity { vec_capacity list.new ≡ vec_capacity list.old }
    {
        for qubit in self {
            list.push_reserved(qubit);
        }
    }
}

/// The qubits of a part one after the other, the lowest place first; the part keeps those that are left.
impl Iterator for Part {
    type Item = u16;

    ghost next_gives = { YieldsFirst part_told };

    ghost remaining = { item_count part_told };

    fn next(&mut self) -> Option<u16> {
        if self.word == 0 {
            return None;
        }
        let place = self.word.trailing_zeros() as u16;
        self.word &= self.word - 1;
        Some(self.first + place * self.step)
    }
}

impl Parts {
    pub(crate) fn new(front: Part, back: Part) -> Parts
        ensures front { result.front ≡ front }
        ensures back { result.back ≡ back }
    {
        Parts { front, back }
    }

    /// How many qubits the row has.
    pub(crate) fn len(&self) -> u16
        ensures { result ≡ length (parts_told self.now) }
    {
        self.front.len() + self.back.len()
    }

    /// The row's k-th qubit, from 0.
    pub(crate) fn qubit(&self, k: u16) -> Option<u16>
        ensures { result ≡ within_range (nat_lt k (length (parts_told self.now))) (slice_index (parts_told self.now) k) }
    {
        let len = self.front.len();
        if k < len {
            self.front.qubit(k)
        } else {
            self.back.qubit(k - len)
        }
    }

    /// Appends the row's qubits to a list.
    pub(crate) fn tell(&self, list: &mut Vec<u16>) -> Result<(), AllocError>
        ensures { list.new.items ≡ (if is_ok result then list.old.items ++ parts_told self.now else list.old.items) }
    {
        self.make_room(list)?;
        self.front.tell(list);
        self.back.tell(list);
        Ok(())
    }

    /// Makes room in a list for the row's qubits. They are counted only where room for the 64 that a row may have is wanting.
    fn make_room(&self, list: &mut Vec<u16>) -> Result<(), AllocError>
        ensures items { list.new.items ≡ list.old.items }
        ensures room { OnOk result (vec_len list.new + length (parts_told self.now) ≤ vec_capacity list.new) }
    {
        if list.capacity() - list.len() >= 64 {
            return Ok(());
        }
        list.reserve(self.len() as usize)?;
        Ok(())
    }
}

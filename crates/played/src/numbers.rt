//! The numbers of a line, read one after the other.
ghost use Rattle.std.specs.Prelude.{◌≡◌, ◌/◌, drop, length, IfOk, OnOk, min, slice_index};
ghost use Rattle.std.specs.Simd.{first_chunks};
ghost use Rattle.played.specs.Reading.{short, counted, after_counted};

use std::alloc::{AllocError, Global};
use std::marker::Model;

/// The numbers that are left to read; past the end each is 0.
#[derive(Drop)]
pub struct Numbers<'a> {
    rest: &'a [u32],
}

impl<'a> Model for Numbers<'a> {
    ghost use Rattle.std.specs.Prelude.{ℕ, List};

    // the numbers that are left
    ghost Value = { List ℕ };

    ghost view = { λ n. n.rest.now };
}

impl<'a> Numbers<'a> {
    pub fn new(numbers: &'a [u32]) -> Numbers<'a>
        ensures { result ≡ numbers.now }
    {
        Numbers { rest: numbers }
    }

    /// The next number; 0 past the end.
    pub fn next(&mut self) -> u32
        ensures value { result ≡ slice_index self.old 0 }
        ensures rest { self.new ≡ drop 1 self.old }
    {
        let Some((first, rest)) = self.rest.split_first() else {
            return 0;
        };
        self.rest = rest;
        *first
    }

    // Kept: the clause `rest` stands at each of the four, since each takes a number off; a definition would hide one equation behind a word.
    /// The next number as a place in a list.
    pub fn place(&mut self) -> usize
        ensures value { result ≡ slice_index self.old 0 }
        ensures rest { self.new ≡ drop 1 self.old }
    {
        self.next() as usize
    }

    /// The next number as one of a qubit, check or generator; what is larger than any becomes the largest.
    pub fn short(&mut self) -> u16
        ensures value { result ≡ short (slice_index self.old 0) }
        ensures rest { self.new ≡ drop 1 self.old }
    {
        shortened(self.next())
    }

    pub fn byte(&mut self) -> u8
        ensures value { result ≡ min (slice_index self.old 0) 255 }
        ensures rest { self.new ≡ drop 1 self.old }
    {
        u8::try_from(self.next()).unwrap_or(u8::MAX)
    }

    /// A count and so many numbers.
    pub fn list(&mut self, heap: Global) -> Result<Vec<u16>, AllocError>
        ensures items { IfOk result (λ v. v.items ≡ counted self.old) }
        ensures rest { OnOk result (self.new ≡ after_counted self.old) }
    {
        // Kept: a loop, since past the end each number is 0. A chain would count places, look each up (`get(k).unwrap_or(0)`), and cut off after
        // it what it read; of a closure that reads off `self` its proof knows nothing.
        let count = self.next();
        let mut list = Vec::new(heap);
        for _read in 0..count {
            list.push(self.short())?;
        }
        Ok(list)
    }

    /// The numbers that are left, two by two; one that is left over is left out.
    pub(crate) fn pairs(&self) -> &'a [[u32; 2]]
        ensures { result.now ≡ first_chunks 2 (length self.now / 2) self.now }
    {
        let (pairs, _) = self.rest.as_chunks::<2>();
        pairs
    }
}

/// A number as one of a qubit, check or generator.
pub(crate) fn shortened(number: u32) -> u16
    ensures { result ≡ short number }
{
    u16::try_from(number).unwrap_or(u16::MAX)
}

//! The qubits that a walk has still to visit.
ghost use Rattle.std.specs.Prelude.{◌≡◌, ◌<◌, [], ◌∷◌, ◌++◌, length, IfOk, MatchOption};

use stack::{pop, push};
use std::alloc::{AllocError, Global};
use std::marker::Model;

/// Qubits that wait, last in, first out, in memory for a fixed number of them.
#[derive(Drop)]
pub(crate) struct Pending {
    slots: Vec<u16>,
    len: usize,
}

impl Model for Pending {
    ghost use Rattle.std.specs.Prelude.{◌≤◌, length, take};
    ghost use Rattle.walking.specs.Waiting.{Waiting};

    ghost Value = { Waiting };

    ghost view = { λ p. record { room = length p.slots.items; list = take p.len p.slots.items } };

    ghost invariant = { λ p. p.len ≤ length p.slots.items };
}

impl Pending {
    /// Room for so many.
    pub(crate) fn new(heap: Global, room: u16) -> Result<Pending, AllocError>
        ensures { IfOk result (λ p. (p.room ≡ room) × (p.list ≡ [])) }
    {
        let slots = vec![in heap; 0u16; room as usize]?;
        Ok(Pending { slots, len: 0 })
    }

    /// Lets a qubit wait.
    pub(crate) fn push(&mut self, qubit: u16)
        requires { length self.old.list < self.old.room }
        ensures room { self.new.room ≡ self.old.room }
        ensures list { self.new.list ≡ self.old.list ++ qubit ∷ [] }
    {
        let _room = push(self.slots.as_mut_slice(), &mut self.len, qubit);
    }

    /// The qubit that waits the shortest.
    pub(crate) fn pop(&mut self) -> Option<u16>
        ensures room { self.new.room ≡ self.old.room }
        ensures list { MatchOption result ((self.old.list ≡ []) × (self.new.list ≡ [])) (λ q. self.old.list ≡ self.new.list ++ q ∷ []) }
    {
        pop(self.slots.as_slice(), &mut self.len)
    }
}

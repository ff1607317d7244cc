//! Marks in scratch bytes, and a guard that clears them again on every way out.
#![tactic(auto)]

ghost use Rattle.std.specs.Prelude.{◌≡◌};
ghost use Rattle.terms.specs.Answering.{checked};
ghost use Rattle.marks.specs.Marks.{scratch_fault, is_marked, with_mark, cleared, Restores};

use terms::refusal::Refusal;

/// Holds scratch bytes during a walk over qubits. Of them the first `qubits` serve as marks; they are zero again once the guard ends,
/// and the others are never touched.
// Kept: the clause `lender` says that the guard holds the caller's own slice; a part of it is another borrow, and what the bytes behind it are would be unknown.
pub struct Marks<'a> {
    scratch: &'a mut [u8],
    qubits: usize,
}

impl Drop for Marks<'_> {
    fn drop(self)
        ensures { self.exit.0.now ≡ cleared self.entry.qubits self.entry.scratch.now }
    {
        let Marks { scratch, qubits } = self;
        let end = qubits.min(scratch.len());
        scratch[..end].fill(0);
    }
}

impl<'a> Marks<'a> {
    /// Takes the scratch bytes for a walk. Look for a fault of theirs first: what is not zero counts as a mark.
    pub fn begin(scratch: &'a mut [u8], qubits: usize) -> Marks<'a>
        ensures bytes { result.scratch.now ≡ scratch.old }
        ensures size { result.qubits ≡ qubits }
        ensures lender { result.scratch.ghost_name ≡ scratch.entry.ghost_name }
    {
        Marks { scratch, qubits }
    }
}

impl Marks<'_> {
    /// Whether a qubit is marked.
    pub fn is_marked(&self, k: usize) -> bool
        ensures { result ≡ is_marked self.now.qubits self.now.scratch.now k }
    {
        k < self.qubits && self.scratch.get(k).is_some_and(|byte| *byte != 0)
    }

    /// Marks a qubit; a number that is none of the qubits changes nothing.
    pub fn mark(&mut self, k: usize)
        ensures bytes { self.new.scratch.now ≡ with_mark self.old.qubits self.old.scratch.now k }
        ensures size { self.new.qubits ≡ self.old.qubits }
        ensures lender { self.new.scratch.ghost_name ≡ self.old.scratch.ghost_name }
    {
        // Kept: through `get_mut(k)` the goal `returns-in-Some-clause-bytes` stays open, since nothing ties what is written there to the bytes behind the guard.
        if k < self.qubits && k < self.scratch.len() {
            self.scratch[k] = 1;
        }
    }
}

/// Scratch bytes cannot serve for so many qubits where they are too few, or where one that would serve is not zero.
pub fn scratch_fault(scratch: &[u8], qubits: usize) -> Result<(), Refusal>
    ensures { result ≡ checked (scratch_fault qubits scratch.now) }
{
    let Some(used) = scratch.get(..qubits) else {
        return Err(Refusal::BufferTooShort);
    };
    // The greatest, in place of a look for the first that is not zero: bytes are compared many at a time, and there is mostly none.
    if used.iter().fold(0, |most: u8, byte| most.max(*byte)) != 0 {
        return Err(Refusal::ScratchNotZero);
    }
    Ok(())
}

/// Scratch bytes that had no fault, marked and then cleared by the guard, are as they were.
pub fn cleared_scratch_is_as_it_was()
    ensures { Restores }
{}

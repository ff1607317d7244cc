//! Sets of numbers as masks, lists, and bits: definitions in specs/, and what is proved of them in proofs/.
#![tactic(auto)]

ghost use Rattle.sets.specs.Counts.{ToldOnce};

/// A list without repeats that names exactly the elements of a set is as long as the set is large.
pub fn told_once_is_counted_once()
    ensures { ToldOnce }
{}

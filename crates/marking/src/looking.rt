//! What is asked of lists of numbers and of marks.
ghost use Rattle.std.specs.Prelude.{◌≡◌};
ghost use Rattle.sets.specs.Sets.{has};
ghost use Rattle.rules.specs.Reports.{rises, some_past};

/// Whether each number of a list is above the one before it.
pub fn is_rising(list: &[u16]) -> bool
    ensures { result ≡ rises list.now }
{
    list.is_sorted_by(|a, b| a < b)
}

/// Whether some number of a list is not below the limit.
pub fn some_past(limit: u16, list: &[u16]) -> bool
    ensures { result ≡ some_past limit list.now }
{
    list.iter().any(|k| *k >= limit)
}

/// Whether a place is marked. One past the end is not.
pub fn is_marked(place: u16, marks: &[bool]) -> bool
    ensures { result ≡ has marks.now place }
{
    marks.get(usize::from(place)) == Some(&true)
}

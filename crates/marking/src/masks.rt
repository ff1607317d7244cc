//! What is asked of marks.
ghost use Rattle.std.specs.Prelude.{◌≡◌};
ghost use Rattle.sets.specs.Sets.{any as some};

/// Whether some mark is set.
pub fn any(marks: &[bool]) -> bool
    ensures { result ≡ some marks.now }
{
    marks.contains(&true)
}

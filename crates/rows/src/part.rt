//! Where a row stands among the places.
ghost use Rattle.std.specs.Prelude.{◌≡◌, ◌≤◌, ◌∷◌, length, slice_index};
ghost use Rattle.rows.specs.Cut.{cut};

/// Where row k starts, or would start if there were one more.
pub(crate) fn start(ends: &[usize], k: usize) -> usize
    requires { k ≤ length ends.now }
    ensures { result ≡ slice_index (0 ∷ ends.now) k }
{
    if k == 0 { 0 } else { ends[k - 1] }
}

/// The places between two.
pub(crate) fn part(places: &[u16], start: usize, end: usize) -> &[u16]
    requires { (start ≤ end) × (end ≤ length places.now) }
    ensures { result.now ≡ cut places.now start end }
{
    &places[start..end]
}

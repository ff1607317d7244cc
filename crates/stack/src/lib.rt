//! Last in, first out, over a slice of any copyable element: of the slots, the first `len` are held, and the last of these is on top.
#![tactic(auto)]

ghost use Rattle.std.specs.Prelude.{◌≡◌, ◌+◌, ◌&&◌, [], ◌∷◌, ◌++◌, length, take, is_some, is_ok, if◌then◌else◌, nat_le, nat_lt, slice_set};
ghost use Rattle.std.specs.Option.{option_to_list};

// Kept: slots and a length, since one text is to serve a list that a trial owns and scratch memory that a caller lends (docs/DECISIONS.md).
/// Puts an element on top. Where there is no slot left it hands the element back, and nothing changes. Slots beyond the new top keep what they have.
pub fn push<T: Copy>(slots: &mut [T], len: &mut usize, x: T) -> Result<(), T>
    ensures test { result ≡ (if nat_lt len.old (length slots.old) then Ok tt else Err x) }
    ensures slots { slots.new ≡ (if is_ok result then slice_set slots.old len.old x else slots.old) }
    ensures size { len.new ≡ (if is_ok result then len.old + 1 else len.old) }
    ensures held { take len.new slots.new ≡ (if is_ok result then take len.old slots.old ++ (x ∷ []) else take len.old slots.old) }
{
    if *len >= slots.len() {
        return Err(x);
    }
    slots[*len] = x;
    *len += 1;
    Ok(())
}

/// Takes the top off. Where nothing is held, or `len` is beyond the slots, there is none, and nothing changes.
pub fn pop<T: Copy>(slots: &[T], len: &mut usize) -> Option<T>
    ensures test { is_some result ≡ (nat_lt 0 len.old && nat_le len.old (length slots.now)) }
    ensures size { len.old ≡ len.new + length (option_to_list result) }
    ensures held { take len.old slots.now ≡ take len.new slots.now ++ option_to_list result }
{
    let below = len.checked_sub(1)?;
    let top = *slots.get(below)?;
    *len = below;
    Some(top)
}

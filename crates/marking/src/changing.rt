//! Changes at listed places. A place past the end changes nothing.
ghost use Rattle.std.specs.Prelude.{◌≡◌, None};
ghost use Rattle.marking.specs.Written.{written};
ghost use Rattle.upkeep.specs.Changed.{changed, turned, marked, unmarked, lowered, raised};

use terms::refusal::Refusal;

/// Turns the mark at each listed place over.
pub fn turn(places: &[u16], marks: &mut [bool])
    ensures { marks.new ≡ turned places.now marks.old }
{
    change_each(places, marks, |mark| !mark);
}

/// Sets the mark at each listed place.
pub fn mark(places: &[u16], marks: &mut [bool])
    ensures { marks.new ≡ marked places.now marks.old }
{
    change_each(places, marks, |_| true);
}

/// Takes the mark at each listed place back.
pub fn unmark(places: &[u16], marks: &mut [bool])
    ensures { marks.new ≡ unmarked places.now marks.old }
{
    change_each(places, marks, |_| false);
}

/// Makes the count at each listed place one lower; 0 stays.
pub fn lower(places: &[u16], counts: &mut [u16])
    ensures { counts.new ≡ lowered places.now counts.old }
{
    change_each(places, counts, |count| count.saturating_sub(1));
}

/// Makes the count at each listed place one higher; 65535 stays.
pub fn raise(places: &[u16], counts: &mut [u16])
    ensures { counts.new ≡ raised places.now counts.old }
{
    change_each(places, counts, |count| count.saturating_add(1));
}

/// Takes out what stands at each listed place.
pub fn take_out<T: Copy>(places: &[u16], list: &mut [Option<T>])
    ensures { list.new ≡ changed None (λ _. None) places.now list.old }
{
    change_each(places, list, |_| None);
}

/// Changes what stands at each listed place.
fn change_each<T: Copy, F: Fn(T) -> T>(places: &[u16], list: &mut [T], change: F)
    requires { F.IsAlwaysCallable change }
    ensures { (d : T) (f : T → T) → ((x y : T) → F.post change x y → y ≡ f x) → list.new ≡ changed d f places.now list.old }
{
    for k in places {
        let k = usize::from(*k);
        // Kept: by index, since nothing is known of a slice after `get_mut`.
        if k < list.len() {
            list[k] = change(list[k]);
        }
    }
}

/// Writes 1 for a mark that is set and 0 for another into the first bytes, one a mark; the others keep their values. With too few bytes nothing is written.
pub fn write_marks(marks: &[bool], bytes: &mut [u8]) -> Result<(), Refusal>
    ensures { (result, bytes.new) ≡ written marks.now bytes.old }
{
    if bytes.len() < marks.len() {
        return Err(Refusal::BufferTooShort);
    }
    // Kept: by number, since after a `zip` with `bytes.iter_mut()` the goal `returns` stayed open: nothing is known of the bytes then.
    for (k, mark) in marks.iter().enumerate() {
        bytes[k] = u8::from(*mark);
    }
    Ok(())
}

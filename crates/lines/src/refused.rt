//! The line of a refusal.
ghost use Rattle.std.specs.Prelude.{◌≡◌, ◌≤◌, length, IfOk, Some, string_bytes};
ghost use Rattle.lines.specs.Lines.{refused_line};

use std::alloc::{AllocError, Global};
use trialfile::fault::FileFault;

/// The line for a file that is refused: the refusal's number, what was awaited, and the place. Want of memory is no fault of a file, and has no line.
pub fn refused_line(heap: Global, fault: FileFault) -> Result<String, AllocError>
    ensures line { IfOk result (λ s. Some (string_bytes s) ≡ refused_line fault) }
    ensures short { IfOk result (λ s. length (string_bytes s) ≤ 65536) }
{
    let (Some(number), Some(spot)) = (fault.refusal().number(), fault.spot()) else {
        return Err(AllocError);
    };
    let section = spot.section.word();
    let place = spot.place;
    format!(in heap; "refused {number} {section} {place}\n")
}

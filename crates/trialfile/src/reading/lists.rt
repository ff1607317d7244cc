//! The two lists of the report.
ghost use Rattle.std.specs.Prelude.{◌≡◌, None as Nothing};
ghost use Rattle.trialfile.specs.Reading.{answered, each, AnswersUnlessMemory};
ghost use Rattle.trialfile.specs.Sections.{listed, list};

use super::number;
use super::sections::count;
use crate::fault::SectionFault;
use crate::kind::Kind;
use std::alloc::Global;
use tokens::tokens::Tokens;

/// Reads a list of the report.
pub(super) fn list(
    heap: Global,
    tokens: &mut Tokens,
    kind: Kind,
    limit: u16,
) -> Result<Vec<u16>, SectionFault>
    ensures { AnswersUnlessMemory (λ v. v.items) result tokens.new (list kind limit tokens.old) }
{
    let count = count(tokens, kind.section())?;
    numbers(heap, tokens, kind, limit, count)
}

// Kept: a loop; a chain would read on in `tokens` inside a closure, and of what that answers its proof knows nothing.
/// Reads so many numbers of a list, each above the one before it.
fn numbers(
    heap: Global,
    tokens: &mut Tokens,
    kind: Kind,
    limit: u16,
    count: u16,
) -> Result<Vec<u16>, SectionFault>
    ensures { AnswersUnlessMemory (λ v. v.items) result tokens.new (each count (listed kind limit) Nothing tokens.old) }
{
    let mut numbers = Vec::with_capacity(heap, usize::from(count))?;
    let mut last = None;
    for _read in 0..count {
        let number = listed(tokens, kind, limit, last)?;
        numbers.push(number)?;
        last = Some(number);
    }
    Ok(numbers)
}

/// Reads a number of a list of the report.
fn listed(
    tokens: &mut Tokens,
    kind: Kind,
    limit: u16,
    last: Option<u16>,
) -> Result<u16, SectionFault>
    ensures { answered result tokens.new ≡ listed kind limit last tokens.old }
{
    let number = number(tokens, kind.section())?;
    if number.value >= limit {
        return Err(kind.too_large(number.spot));
    }
    if last.is_some_and(|last| number.value <= last) {
        return Err(SectionFault::NotRising(number.spot));
    }
    Ok(number.value)
}

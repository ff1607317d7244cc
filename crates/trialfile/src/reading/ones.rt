//! The ones of the seed, rising by row and then by column.
ghost use Rattle.std.specs.Prelude.{◌≡◌, None as Nothing};
ghost use Rattle.trialfile.specs.Reading.{answered, each, AnswersUnlessMemory};
ghost use Rattle.trialfile.specs.Sections.{row, column, place, ones};

use super::number;
use super::sections::count;
use crate::fault::SectionFault;
use crate::sizes::Sizes;
use product::place::Place;
use std::alloc::Global;
use tokens::section::Section;
use tokens::tokens::Tokens;

/// Reads the ones of the seed.
pub(super) fn ones(
    heap: Global,
    tokens: &mut Tokens,
    sizes: Sizes,
) -> Result<Vec<Place>, SectionFault>
    ensures { AnswersUnlessMemory (λ v. v.items) result tokens.new (ones sizes.rows sizes.columns tokens.old) }
{
    let count = count(tokens, Section::Ones)?;
    places(heap, tokens, sizes, count / 2)
}

// Kept: a loop; a chain would read on in `tokens` inside a closure, and of what that answers its proof knows nothing.
/// Reads so many ones, each after the one before it.
fn places(
    heap: Global,
    tokens: &mut Tokens,
    sizes: Sizes,
    count: u16,
) -> Result<Vec<Place>, SectionFault>
    ensures { AnswersUnlessMemory (λ v. v.items) result tokens.new (each count (place sizes.rows sizes.columns) Nothing tokens.old) }
{
    let mut places = Vec::with_capacity(heap, usize::from(count))?;
    let mut last = None;
    for _read in 0..count {
        let place = place(tokens, sizes, last)?;
        places.push(place)?;
        last = Some(place);
    }
    Ok(places)
}

/// Reads the place of a one.
fn place(tokens: &mut Tokens, sizes: Sizes, last: Option<Place>) -> Result<Place, SectionFault>
    ensures { answered result tokens.new ≡ place sizes.rows sizes.columns last tokens.old }
{
    let row = row(tokens, sizes.rows, last)?;
    column(tokens, sizes.columns, last, row)
}

/// Reads the row of a one.
fn row(tokens: &mut Tokens, rows: u16, last: Option<Place>) -> Result<u16, SectionFault>
    ensures { answered result tokens.new ≡ row rows last tokens.old }
{
    let row = number(tokens, Section::Ones)?;
    if row.value >= rows {
        return Err(SectionFault::OutsideLimits(row.spot));
    }
    if last.is_some_and(|last| row.value < last.row) {
        return Err(SectionFault::NotRising(row.spot));
    }
    Ok(row.value)
}

/// Reads the column of a one in a row.
fn column(
    tokens: &mut Tokens,
    columns: u16,
    last: Option<Place>,
    row: u16,
) -> Result<Place, SectionFault>
    ensures { answered result tokens.new ≡ column columns last row tokens.old }
{
    let column = number(tokens, Section::Ones)?;
    if column.value >= columns {
        return Err(SectionFault::OutsideLimits(column.spot));
    }
    let place = Place {
        row,
        column: column.value,
    };
    if last.is_some_and(|last| place <= last) {
        return Err(SectionFault::NotRising(column.spot));
    }
    Ok(place)
}

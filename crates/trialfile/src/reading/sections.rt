//! What the sections begin with, and those of single numbers.
ghost use Rattle.std.specs.Prelude.{◌≡◌};
ghost use Rattle.trialfile.specs.Reading.{answered};
ghost use Rattle.trialfile.specs.Sections.{count_fits, count, size, switches};

use super::{number, word};
use crate::fault::SectionFault;
use tokens::section::Section;
use tokens::tokens::Tokens;

/// Reads the word of a section and its count.
pub(super) fn count(tokens: &mut Tokens, section: Section) -> Result<u16, SectionFault>
    ensures { answered result tokens.new ≡ count section tokens.old }
{
    word(tokens, section)?;
    let count = number(tokens, section)?;
    if !count_fits(section, count.value) {
        return Err(SectionFault::OutsideLimits(count.spot));
    }
    Ok(count.value)
}

/// Whether a section may have so many numbers.
fn count_fits(section: Section, count: u16) -> bool
    ensures { result ≡ count_fits section count }
{
    match section {
        Section::Seed => count == 2,
        Section::Ones => count % 2 == 0,
        Section::Stages => count == 1,
        _ => true,
    }
}

/// Reads a size of the seed.
pub(super) fn size(tokens: &mut Tokens) -> Result<u16, SectionFault>
    ensures { answered result tokens.new ≡ size tokens.old }
{
    let size = number(tokens, Section::Seed)?;
    if !(1..=32).contains(&size.value) {
        return Err(SectionFault::OutsideLimits(size.spot));
    }
    Ok(size.value)
}

/// Reads the switches of the stages.
pub(super) fn switches(tokens: &mut Tokens) -> Result<u16, SectionFault>
    ensures { answered result tokens.new ≡ switches tokens.old }
{
    count(tokens, Section::Stages)?;
    let switches = number(tokens, Section::Stages)?;
    if switches.value > 15 {
        return Err(SectionFault::OutsideLimits(switches.spot));
    }
    Ok(switches.value)
}

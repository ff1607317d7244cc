//! Reading a file: its tokens where they are awaited.
ghost use Rattle.std.specs.Prelude.{◌≡◌};
ghost use Rattle.trialfile.specs.Reading.{answered, word_in, number_in, end_of_file};

use crate::fault::SectionFault;
use tokens::section::{Section, Spot};
use tokens::token::Token;
use tokens::tokens::Tokens;

mod lists;
mod ones;
mod sections;
mod whole;

/// A number and where it stands.
#[derive(Clone, Copy)]
pub(crate) struct Numeral {
    pub(crate) value: u16,
    pub(crate) spot: Spot,
}

/// Reads the word of a section.
fn word(tokens: &mut Tokens, section: Section) -> Result<(), SectionFault>
    ensures { answered result tokens.new ≡ word_in section tokens.old }
{
    let found = tokens.next(section)?;
    match found.token {
        Token::Word(letters) if letters == section.word().as_bytes() => Ok(()),
        Token::End => Err(SectionFault::EndsEarly(found.spot)),
        _ => Err(SectionFault::NotAwaited(found.spot)),
    }
}

/// Reads a number of a section.
fn number(tokens: &mut Tokens, section: Section) -> Result<Numeral, SectionFault>
    ensures { answered result tokens.new ≡ number_in section tokens.old }
{
    let found = tokens.next(section)?;
    match found.token {
        Token::Number(value) => Ok(Numeral {
            value,
            spot: found.spot,
        }),
        Token::End => Err(SectionFault::EndsEarly(found.spot)),
        Token::Word(_) => Err(SectionFault::NotAwaited(found.spot)),
    }
}

/// Reads the end of the file.
fn end(tokens: &mut Tokens) -> Result<(), SectionFault>
    ensures { answered result tokens.new ≡ end_of_file tokens.old }
{
    let found = tokens.next(Section::End)?;
    match found.token {
        Token::End => Ok(()),
        _ => Err(SectionFault::GoesOn(found.spot)),
    }
}

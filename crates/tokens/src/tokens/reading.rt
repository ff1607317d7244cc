//! Reading the next token.
ghost use Rattle.std.specs.Prelude.{◌≡◌, ◌≤◌, length, true};
ghost use Rattle.std.specs.List.{position_or_len, list_all};
ghost use Rattle.std.specs.Char.{is_ascii_digit, is_ascii_lowercase};
ghost use Rattle.tokens.specs.Tokens.{is_separator, is_filled, value_of, token_at, next_token, after_token, found_of, said_of, all_of};

use super::Tokens;
use crate::fault::TokenFault;
use crate::section::{Section, Spot};
use crate::token::{Found, Token};

impl<'a> Tokens<'a> {
    /// The tokens of a file, from its first byte on.
    pub fn of(file: &'a [u8]) -> Tokens<'a>
        ensures { result ≡ all_of file.now }
    {
        Tokens {
            place: 0,
            bytes: file,
        }
    }

    /// Reads the next token, and goes on to where it ends. At the end, that is read again and again.
    pub fn next(&mut self, awaited: Section) -> Result<Found<'a>, TokenFault>
        ensures token { found_of result ≡ next_token awaited self.old }
        ensures rest { self.new ≡ after_token self.old }
    {
        let bytes = self.bytes;
        let (blanks, bytes) = bytes.split_at(first_filled(bytes));
        let (run, rest) = bytes.split_at(first_separator(bytes));
        let spot = Spot {
            section: awaited,
            place: self.place + blanks.len(),
        };
        self.place = spot.place + run.len();
        self.bytes = rest;
        let token = token_of(run, spot)?;
        Ok(Found { token, spot })
    }
}

/// The place of the first separator, or the length.
fn first_separator(bytes: &[u8]) -> usize
    ensures place { result ≡ position_or_len is_separator bytes.now }
    ensures within { result ≤ length bytes.now }
{
    bytes
        .iter()
        .position(|b| is_separator(*b))
        .unwrap_or(bytes.len())
}

/// The place of the first byte that is no separator, or the length.
fn first_filled(bytes: &[u8]) -> usize
    ensures place { result ≡ position_or_len is_filled bytes.now }
    ensures within { result ≤ length bytes.now }
{
    bytes
        .iter()
        .position(|b| !is_separator(*b))
        .unwrap_or(bytes.len())
}

fn is_separator(b: u8) -> bool
    ensures { result ≡ is_separator b }
{
    b == b' ' || b == b'\n'
}

/// The token of a run.
fn token_of(run: &[u8], spot: Spot) -> Result<Token, TokenFault>
    ensures { said_of result ≡ token_at spot run.now }
{
    if run.is_empty() {
        return Ok(Token::End);
    }
    if is_word(run) {
        return Ok(Token::Word(run));
    }
    if !is_number(run) {
        return Err(TokenFault::Mixed(spot));
    }
    if run.len() > 4 {
        return Err(TokenFault::TooManyDigits(spot));
    }
    Ok(Token::Number(value_of(run)))
}

fn is_word(run: &[u8]) -> bool
    ensures { result ≡ list_all is_ascii_lowercase run.now }
{
    run.iter().all(|b| b.is_ascii_lowercase())
}

fn is_number(run: &[u8]) -> bool
    ensures { result ≡ list_all is_ascii_digit run.now }
{
    run.iter().all(|b| b.is_ascii_digit())
}

// Kept: a loop, whose invariant bounds the value by the digits so far; a fold's closure knows no place.
/// The number that is written by at most four digits.
fn value_of(digits: &[u8]) -> u16
    requires few { length digits.now ≤ 4 }
    requires digits { list_all is_ascii_digit digits.now ≡ true }
    ensures { result ≡ value_of digits.now }
{
    let mut value = 0;
    for b in digits {
        value = 10 * value + u16::from(*b - b'0');
    }
    value
}

//! Tokens.
use crate::section::Spot;

/// A word, with its letters as a part of the file; a number; or the file's end.
#[derive(Clone, Copy)]
pub enum Token<'a> {
    Word(&'a [u8]),
    Number(u16),
    End,
}

/// A token, where it starts, and what was awaited there.
#[derive(Clone, Copy)]
pub struct Found<'a> {
    pub token: Token<'a>,
    pub spot: Spot,
}

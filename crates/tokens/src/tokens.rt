//! A file that is read token by token.
use std::marker::Model;

mod reading;

/// What is left of a file.
#[derive(Drop)]
pub struct Tokens<'a> {
    place: usize,
    bytes: &'a [u8],
}

impl<'a> Model for Tokens<'a> {
    ghost use Rattle.std.specs.Prelude.{◌+◌, ◌<◌, ◌^◌, length};
    ghost use Rattle.tokens.specs.Tokens.{Rest};

    // the place that is reached, and the bytes from there on
    ghost Value = { Rest };

    ghost view = { λ t. record { place = t.place; bytes = t.bytes.now } };

    ghost invariant = { λ t. t.place + length t.bytes.now < 2 ^ 64 };
}

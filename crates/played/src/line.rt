//! A line as its word and its numbers.
ghost use Rattle.std.specs.Prelude.{◌≡◌, ℕ, List, IfOk, string_bytes};
ghost use Rattle.played.specs.Words.{SplitsInto, number_of, numbers_among, word_among};

use std::alloc::{AllocError, Global};

/// A word and the numbers beside it.
#[derive(Drop)]
pub struct Line {
    word: String,
    numbers: Vec<u32>,
}

impl Line {
    /// A number larger than `largest` is none: like all else that is none, it is joined to the word.
    pub fn read(heap: Global, text: &str, largest: u32) -> Result<Line, AllocError>
        ensures { IfOk result (λ line. (words : List (List ℕ)) × SplitsInto text.now words × (line.numbers.items ≡ numbers_among largest words) × (string_bytes line.word ≡ word_among largest words)) }
    {
        let mut word = String::new(heap);
        let mut numbers = Vec::new(heap);
        for token in text.split_whitespace() {
            match number_in(token, largest) {
                Some(number) => numbers.push(number)?,
                None => word.push_str(token)?,
            }
        }
        Ok(Line { word, numbers })
    }

    pub fn word(&self) -> &str
        ensures { result.now ≡ string_bytes self.now.word }
    {
        self.word.as_str()
    }

    pub fn numbers(&self) -> &[u32]
        ensures { result.now ≡ self.now.numbers.items }
    {
        self.numbers.as_slice()
    }
}

fn number_in(token: &str, largest: u32) -> Option<u32>
    ensures { result ≡ number_of largest token.now }
{
    // Kept: through `ok().filter(..)` the goal `returns` stays open.
    match token.parse::<u32>() {
        Ok(number) if number <= largest => Some(number),
        _ => None,
    }
}

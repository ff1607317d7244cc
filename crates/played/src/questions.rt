//! Questions to a code.
ghost use Rattle.std.specs.Prelude.{◌≡◌};
ghost use Rattle.played.specs.Questions.{asked_by};

use terms::row::Row;

/// What is asked of a code: a qubit's side, how many qubits a row has, or the qubit at a place of a row.
#[derive(Clone, Copy, Debug, PartialEq, Eq)]
pub enum Asked {
    Side(u16),
    Size(Row),
    Qubit(Row, u16),
}

impl Asked {
    /// The question that a word asks of the two numbers after it; none where it asks nothing.
    pub fn by(word: &str, first: u16, second: u16) -> Option<Asked>
        ensures { result ≡ asked_by word.now first second }
    {
        match word {
            "side" => Some(Asked::Side(first)),
            "check_size" => Some(Asked::Size(Row::Check(first))),
            "generator_size" => Some(Asked::Size(Row::Generator(first))),
            "check_qubit" => Some(Asked::Qubit(Row::Check(first), second)),
            "generator_qubit" => Some(Asked::Qubit(Row::Generator(first), second)),
            _ => None,
        }
    }
}

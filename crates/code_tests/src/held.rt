//! The code that is held, and what it answers.
use code::Code;
use code::turned::Turned;
use listed::Listed;
use played::answers::{Found, Sizes};
use played::codes::{listed_in, product_in};
use played::line::Line;
use played::numbers::Numbers;
use played::questions::Asked;
use played::refused::Refused;
use product::product::Product;
use std::alloc::{AllocError, Global};
use terms::refusal::Refusal;

#[derive(Drop)]
pub(crate) enum Held {
    Nothing,
    Product(Product),
    TurnedProduct(Turned<Product>),
    Listed(Listed),
    TurnedListed(Turned<Listed>),
}

impl Held {
    /// The code after the question, and the answer.
    pub(crate) fn play(self, heap: Global, question: &Line) -> Result<(Held, String), AllocError> {
        let numbers = question.numbers();
        match question.word() {
            "product" => self.after(heap, product_in(heap, numbers).map(Held::Product)),
            "listed" => self.after(heap, listed_in(heap, numbers).map(Held::Listed)),
            "turned" => self.turned().answered(heap, Wanted::Sizes),
            _ => self.answered(heap, Wanted::Answer(question)),
        }
    }

    /// The code after a making, and the answer. A refused making leaves the code.
    fn after(
        self,
        heap: Global,
        made: Result<Held, Refusal>,
    ) -> Result<(Held, String), AllocError> {
        match made {
            Ok(held) => held.answered(heap, Wanted::Sizes),
            Err(refusal) => Ok((self, Refused(refusal).text(heap)?)),
        }
    }

    fn turned(self) -> Held {
        match self {
            Held::Product(code) => Held::TurnedProduct(Turned(code)),
            Held::Listed(code) => Held::TurnedListed(Turned(code)),
            other => other,
        }
    }

    /// The code, and its answer.
    // Kept: an arm for each code, all with the one generic call. A function that lends the code to a closure would take an
    // `FnOnce(&dyn Code) -> R`, and the check cannot state an item with such a bound.
    fn answered(self, heap: Global, wanted: Wanted) -> Result<(Held, String), AllocError> {
        let answer = match &self {
            Held::Nothing => wanted.answer_of_nothing(heap),
            Held::Product(code) => wanted.answer_of(heap, code),
            Held::TurnedProduct(code) => wanted.answer_of(heap, code),
            Held::Listed(code) => wanted.answer_of(heap, code),
            Held::TurnedListed(code) => wanted.answer_of(heap, code),
        };
        Ok((self, answer?))
    }
}

/// What is told of the code that is held once a line was played: the sizes after a making, or the answer to a question.
#[derive(Clone, Copy)]
enum Wanted<'q> {
    Sizes,
    Answer(&'q Line),
}

impl Wanted<'_> {
    fn answer_of<C: Code>(self, heap: Global, code: &C) -> Result<String, AllocError> {
        match self {
            Wanted::Sizes => {
                let sizes = Sizes {
                    qubits: code.qubits(),
                    checks: code.checks(),
                    generators: code.generators(),
                };
                format!(in heap; "{sizes}")
            }
            Wanted::Answer(question) => {
                let answer = asked_in(question).and_then(|asked| asked_of_code(code, asked));
                format!(in heap; "{}", Found(answer))
            }
        }
    }

    fn answer_of_nothing(self, heap: Global) -> Result<String, AllocError> {
        match self {
            Wanted::Sizes => String::from_str(heap, "nothing"),
            Wanted::Answer(_) => format!(in heap; "{}", Found(None)),
        }
    }
}

fn asked_of_code<C: Code>(code: &C, asked: Asked) -> Option<u16> {
    match asked {
        Asked::Side(qubit) => Some(u16::from(u8::from(code.side(qubit)?))),
        Asked::Size(row) => code.row_len(row),
        Asked::Qubit(row, place) => code.row_qubit(row, place),
    }
}

/// The question of a line, if it asks one.
fn asked_in(question: &Line) -> Option<Asked> {
    let mut numbers = Numbers::new(question.numbers());
    Asked::by(question.word(), numbers.short(), numbers.short())
}

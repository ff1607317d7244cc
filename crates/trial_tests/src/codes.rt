//! The codes of a sequence and their tables.
use code::Code;
use code::turned::Turned;
use listed::Listed;
use played::answers::{Found, Sizes};
use played::codes::{listed_in, product_in};
use played::line::Line;
use played::numbers::Numbers;
use played::questions::Asked;
use played::refused::Refused;
use product::product::Product;
use std::alloc::{AllocError, Global};
use table::Table;
use terms::refusal::Refusal;
use terms::row::Row;

/// What a turned code is made of. None is made of a turned one, so that is not kept.
#[derive(Drop)]
enum Source {
    Product(Product),
    Listed(Listed),
    Turned,
}

/// A code that was made, and its table.
#[derive(Drop)]
pub(crate) struct Made {
    source: Source,
    pub(crate) table: Table,
}

/// The codes, numbered as they were made.
#[derive(Drop)]
pub(crate) struct Codes {
    made: Vec<Made>,
}

impl Codes {
    pub(crate) fn new(heap: Global) -> Codes {
        Codes {
            made: Vec::new(heap),
        }
    }

    pub(crate) fn made(&self) -> &[Made] {
        self.made.as_slice()
    }

    /// The answer to a step about codes; none to another step.
    pub(crate) fn play(&mut self, heap: Global, step: &Line) -> Result<Option<String>, AllocError> {
        let made = match step.word() {
            "product" => self.make(heap, product_in(heap, step.numbers()), Source::Product),
            "listed" => self.make(heap, listed_in(heap, step.numbers()), Source::Listed),
            "turned" => self.make_turned(heap, Numbers::new(step.numbers())),
            _ => {
                let Some(question) = Question::read(step) else {
                    return Ok(None);
                };
                return Ok(Some(format!(in heap; "{}", Found(self.answer(question)))?));
            }
        };
        let answer = match made {
            Ok(sizes) => sizes,
            Err(refusal) => Refused(refusal).text(heap)?,
        };
        Ok(Some(answer))
    }

    fn make<C: Code + Drop, F: FnOnce(C) -> Source>(
        &mut self,
        heap: Global,
        made: Result<C, Refusal>,
        source: F,
    ) -> Result<String, Refusal>
        requires { F.IsAlwaysCallable source }
    {
        let code = made?;
        let table = Table::of(heap, &code)?;
        self.keep(heap, source(code), table)
    }

    fn make_turned(&mut self, heap: Global, numbers: Numbers) -> Result<String, Refusal> {
        let mut numbers = numbers;
        let Some(Made { source, .. }) = self.made.get(numbers.place()) else {
            return Ok(String::from_str(heap, "no such code")?);
        };
        let table = match source {
            Source::Product(code) => Table::of(heap, &Turned(code))?,
            Source::Listed(code) => Table::of(heap, &Turned(code))?,
            Source::Turned => return Ok(String::from_str(heap, "no such code")?),
        };
        self.keep(heap, Source::Turned, table)
    }

    /// Keeps a code and tells its sizes.
    fn keep(&mut self, heap: Global, source: Source, table: Table) -> Result<String, Refusal> {
        let sizes = Sizes {
            qubits: table.qubits(),
            checks: table.checks(),
            generators: table.generators(),
        };
        self.made.push(Made { source, table })?;
        Ok(format!(in heap; "{sizes}")?)
    }

    /// Questions go to the table, which has to answer as the code does.
    fn answer(&self, question: Question) -> Option<u16> {
        let Made { table, .. } = self.made.get(question.code)?;
        match question.asked {
            Asked::Side(qubit) => Some(u16::from(u8::from(table.side(qubit)?))),
            Asked::Size(Row::Check(k)) if k >= table.checks() => None,
            Asked::Size(Row::Generator(k)) if k >= table.generators() => None,
            Asked::Size(row) => u16::try_from(table.row(row).len()).ok(),
            Asked::Qubit(row, place) => table.row(row).get(usize::from(place)).copied(),
        }
    }
}

/// A question to one of the codes.
#[derive(Drop)]
struct Question {
    code: usize,
    asked: Asked,
}

impl Question {
    /// None where the step asks nothing of a code.
    fn read(step: &Line) -> Option<Question> {
        let mut numbers = Numbers::new(step.numbers());
        let code = numbers.place();
        let asked = Asked::by(step.word(), numbers.short(), numbers.short())?;
        Some(Question { code, asked })
    }
}

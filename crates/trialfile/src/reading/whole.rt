//! A whole file.
ghost use Rattle.std.specs.Prelude.{◌≡◌, true, length, IfOk, nat_lt};
ghost use Rattle.trialfile.specs.Reading.{AnswersUnlessMemory};
ghost use Rattle.trialfile.specs.Faults.{longest};
ghost use Rattle.trialfile.specs.Contents.{contents, contents_of, file_says, SaysUnlessMemory, WithinLimits};
ghost use Rattle.trialfile.specs.Sections.{sizes};

use super::end;
use super::lists::list;
use super::ones::ones;
use super::sections::{count, size, switches};
use crate::fault::{FileFault, LONGEST, SectionFault};
use crate::file::TrialFile;
use crate::kind::Kind;
use crate::sizes::Sizes;
use std::alloc::Global;
use tokens::section::Section;
use tokens::tokens::Tokens;

impl TrialFile {
    /// Reads a trial file. What is accepted makes a product code, opens a trial on it unless the tally is full, and names stages of a run.
    pub fn read(heap: Global, file: &[u8]) -> Result<TrialFile, FileFault>
        ensures says { SaysUnlessMemory result (file_says file.now) }
        ensures long { nat_lt longest (length file.now) ≡ true → result ≡ Err (FileFault.TooLong) }
        ensures within { IfOk result (λ f. WithinLimits (contents_of f)) }
    {
        if file.len() > LONGEST {
            return Err(FileFault::TooLong);
        }
        let contents = contents(heap, &mut Tokens::of(file))?;
        Ok(contents)
    }
}

/// Reads the sections in their order, and the end.
fn contents(heap: Global, tokens: &mut Tokens) -> Result<TrialFile, SectionFault>
    ensures { AnswersUnlessMemory contents_of result tokens.new (contents tokens.old) }
{
    let sizes = sizes(tokens)?;
    let ones = ones(heap, tokens, sizes)?;
    let lost = list(heap, tokens, Kind::Lost, sizes.qubits())?;
    let odd = list(heap, tokens, Kind::Odd, sizes.checks())?;
    let switches = switches(tokens)?;
    end(tokens)?;
    Ok(TrialFile {
        sizes,
        ones,
        lost,
        odd,
        switches,
    })
}

/// Reads the sizes of the seed.
fn sizes(tokens: &mut Tokens) -> Result<Sizes, SectionFault>
    ensures { AnswersUnlessMemory (λ s. (s.rows, s.columns)) result tokens.new (sizes tokens.old) }
{
    count(tokens, Section::Seed)?;
    let rows = size(tokens)?;
    let columns = size(tokens)?;
    Ok(Sizes { rows, columns })
}

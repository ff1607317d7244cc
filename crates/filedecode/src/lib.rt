//! From the bytes of a trial file to the lines that are printed for it.
#![tactic(auto)]

ghost use Rattle.std.specs.Prelude.{◌≡◌, ◌<◌, ◌≤◌, map, length, IfOk, string_bytes};
ghost use Rattle.meaning.specs.Meaning.{qubits};
ghost use Rattle.product.specs.OfProduct.{meaning_of};
ghost use Rattle.rules.specs.Tallies.{verdict, byte};
ghost use Rattle.rules.specs.Law.{TrueOf};
ghost use Rattle.trialfile.specs.Contents.{contents_of, code_of, WithinLimits};
ghost use Rattle.filedecode.specs.Printed.{report_of, end_of, trial_lines, printed, TrueLines, TrueOfFile};

use decoding::whole::decode;
use lines::refused::refused_line;
use lines::verdict::verdict_lines;
use product::product::Product;
use rules::answers::Verdict;
use std::alloc::{AllocError, Global};
use terms::refusal::Refusal;
use trial::report::Report;
use trial::tally::Tally;
use trialfile::file::TrialFile;

/// The lines that are printed for a file: of its trial, or of its first fault. It fails only for want of memory.
/// The verdict that is printed is true of the report that the file states, with the printed qubits as the correction.
pub fn decode_file(heap: Global, file: &[u8]) -> Result<String, AllocError>
    ensures lines { IfOk result (λ s. string_bytes s ≡ printed file.now) }
    ensures short { IfOk result (λ s. length (string_bytes s) ≤ 65536) }
    ensures never_empty { 0 < length (printed file.now) }
    ensures truth { IfOk result (λ _. TrueOfFile file.now) }
{
    match TrialFile::read(heap, file) {
        Ok(file) => trial_lines(heap, &file),
        Err(fault) => refused_line(heap, fault),
    }
}

/// The lines of the trial of an accepted file.
fn trial_lines(heap: Global, file: &TrialFile) -> Result<String, AllocError>
    requires within { WithinLimits (contents_of file.now) }
    ensures lines { IfOk result (λ s. string_bytes s ≡ trial_lines (contents_of file.now)) }
    ensures short { IfOk result (λ s. length (string_bytes s) ≤ 65536) }
    ensures truth { IfOk result (λ _. TrueLines (contents_of file.now)) }
{
    let mut flips = vec![in heap; 0u8; usize::from(file.sizes.qubits())]?;
    let verdict = verdict_of(heap, file, &mut flips)?;
    verdict_lines(heap, file.sizes, verdict, &flips)
}

/// The verdict of the trial of an accepted file; the correction goes into the bytes, one for each qubit.
fn verdict_of(heap: Global, file: &TrialFile, flips: &mut [u8]) -> Result<Verdict, AllocError>
    requires within { WithinLimits (contents_of file.now) }
    requires room { length flips.old ≡ qubits (code_of (contents_of file.now)) }
    ensures answer { IfOk result (λ v. v ≡ verdict (end_of (contents_of file.now))) }
    ensures correction { IfOk result (λ _. flips.new ≡ map byte (end_of (contents_of file.now)).flipped) }
    ensures truth { IfOk result (λ v. TrueOf (code_of (contents_of file.now)) (report_of (contents_of file.now)) (end_of (contents_of file.now)) v) }
{
    let code = code_of(file);
    let report = Report {
        lost: &file.lost,
        odd: &file.odd,
    };
    match decode(heap, &code, report, file.switches, flips, &mut Tally::new()) {
        Ok(verdict) => Ok(verdict),
        Err(Refusal::NoMemory) => Err(AllocError),
        Err(_) => unreachable(),
    }
}

/// The product code of the seed of an accepted file.
fn code_of(file: &TrialFile) -> Product
    requires within { WithinLimits (contents_of file.now) }
    ensures { meaning_of result ≡ code_of (contents_of file.now) }
{
    match Product::new(file.seed()) {
        Ok(code) => code,
        Err(_) => unreachable(),
    }
}

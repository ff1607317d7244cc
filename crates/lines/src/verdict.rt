//! The lines of a verdict.
ghost use Rattle.std.specs.Prelude.{◌≡◌, ◌≤◌, length, IfOk, string_bytes};
ghost use Rattle.lines.specs.Lines.{outcome_word, shown, verdict_lines};

use crate::flips::Flips;
use rules::answers::{Outcome, Verdict};
use std::alloc::{AllocError, Global};
use trialfile::sizes::Sizes;

/// What is printed of a verdict on the product code of a seed: the outcome and the counts, and where it is solved a line for each flipped qubit.
/// `flips` begins with a byte for each qubit, 1 where it is flipped.
pub fn verdict_lines(
    heap: Global,
    sizes: Sizes,
    verdict: Verdict,
    flips: &[u8],
) -> Result<String, AllocError>
    ensures lines { IfOk result (λ s. string_bytes s ≡ verdict_lines sizes.rows sizes.columns verdict flips.now) }
    ensures short { IfOk result (λ s. length (string_bytes s) ≤ 65536) }
{
    let Verdict {
        outcome,
        peeled,
        pruned,
        chosen,
    } = verdict;
    let word = outcome_word(outcome);
    let shown = usize::from(shown(outcome, sizes.qubits()));
    let flips = Flips {
        sizes,
        bytes: &flips[..shown.min(flips.len())],
    };
    format!(in heap; "{word} peeled {peeled} pruned {pruned} chosen {chosen}\n{flips}")
}

/// The word that is printed for an outcome.
fn outcome_word(outcome: Outcome) -> &'static str
    ensures { result.now ≡ outcome_word outcome }
{
    match outcome {
        Outcome::Solved => "solved",
        Outcome::Nothing => "none",
        Outcome::Unfinished => "unfinished",
    }
}

/// How many qubits may be shown as flipped.
fn shown(outcome: Outcome, qubits: u16) -> u16
    ensures { result ≡ shown outcome qubits }
{
    match outcome {
        Outcome::Solved => qubits,
        Outcome::Nothing | Outcome::Unfinished => 0,
    }
}

//! Opening a trial.
ghost use Rattle.std.specs.Prelude.{◌≡◌, false, length, replicate, IfOk, None};
ghost use Rattle.terms.specs.Answering.{AnswersIfMemory};
ghost use Rattle.meaning.specs.Meaning.{qubits};
ghost use Rattle.rules.specs.Reports.{some_past};
ghost use Rattle.rules.specs.Tallies.{open_trial};
ghost use Rattle.table.specs.OfTable.{meaning_of};
ghost use Rattle.upkeep.specs.Changed.{marked};
ghost use Rattle.trial.specs.Opening.{Opens, OpenedOn, BegunOn};

use super::Trial;
use super::board::Board;
use super::erasing::Erasures;
use crate::report::Report;
use crate::slip::Slip;
use crate::tally::Tally;
use marking::changing::mark;
use shelf::Shelf;
use std::alloc::{AllocError, Global};
use systems::System;
use table::Table;
use terms::refusal::Refusal;
use walking::walker::Walker;

/// What an accepted opening hands out.
pub struct Opened<'t> {
    pub trial: Trial<'t>,
    pub slip: Slip,
}

impl<'t> Trial<'t> {
    /// Opens a trial on the code of a table and a report, and counts it on the tally.
    pub fn open(
        heap: Global,
        table: &'t Table,
        report: Report<'_>,
        tally: &mut Tally,
    ) -> Result<Opened<'t>, Refusal>
        ensures does { Opens result tally.old.counts tally.new.counts (open_trial (meaning_of table.now) tally.old.counts report.entry.lost.now report.entry.odd.now) }
        ensures table { OpenedOn table.now result }
    {
        report.check(table, tally)?;
        let number = tally.next();
        let trial = begin(heap, table, report, number)?;
        tally.open_one();
        let slip = Slip::new(number);
        Ok(Opened { trial, slip })
    }
}

/// Takes all memory of a trial: nothing is flipped, no check is closed, the lost qubits are erased and the listed checks odd.
fn begin<'t>(
    heap: Global,
    table: &'t Table,
    report: Report<'_>,
    number: u32,
) -> Result<Trial<'t>, Refusal>
    requires lost { some_past (qubits (meaning_of table.now)) report.lost.now ≡ false }
    requires odd { some_past (length (meaning_of table.now).checks) report.odd.now ≡ false }
    ensures { AnswersIfMemory result None (BegunOn table.now report.entry.lost.now report.entry.odd.now number) }
{
    let erasures = Erasures::of(heap, table, report.lost)?;
    let flipped = vec![in heap; false; table.qubits() as usize]?;
    let closed = vec![in heap; false; table.checks() as usize]?;
    let odd = marked_marks(heap, table.checks() as usize, report.odd)?;
    let walker = Walker::new(heap, table)?;
    let system = System::new(heap)?;
    let listed = Vec::with_capacity(heap, table.qubits() as usize)?;
    let shelf = Shelf::new(heap, table.qubits(), table.checks())?;
    let passed = vec![in heap; false; table.qubits() as usize]?;
    let board = Board {
        erasures,
        flipped,
        odd,
    };
    Ok(Trial {
        board,
        closed,
        void: false,
        number,
        peeled: 0,
        pruned: 0,
        chosen: 0,
        walker,
        system,
        listed,
        passed,
        shelf,
    })
}

/// Marks of which the listed ones are set.
fn marked_marks(heap: Global, len: usize, places: &[u16]) -> Result<Vec<bool>, AllocError>
    ensures { IfOk result (λ v. v.items ≡ marked places.now (replicate len false)) }
{
    let mut marks = vec![in heap; false; len]?;
    mark(places, marks.as_mut_slice());
    Ok(marks)
}

//! Rows read crosswise: for each number, the rows that name it.
ghost use Rattle.std.specs.Prelude.{◌≡◌, map, IfOk};
ghost use Rattle.std.specs.List.{range_with_len};
ghost use Rattle.rows.specs.Crossing.{times, namers};
ghost use Rattle.rows.specs.Laid.{Laid};

use super::Rows;
use std::alloc::{AllocError, Global};
use std::mem::replace;

impl Rows {
    /// For each number below `columns`, the numbers of those of the first `count` rows that name it, rising.
    /// The rows are read twice: once to count, so that each column has places of its own, and once to write.
    pub fn crossing(&self, heap: Global, count: u16, columns: u16) -> Result<Rows, AllocError>
        ensures { IfOk result (λ c. c ≡ map (λ q. namers self.now q count) (range_with_len 0 columns)) }
    {
        // One array for all: how long each column is to be, then where its next number goes, and in the end where it ends.
        let mut ends = counted(self.first(count as usize), heap, columns)?;
        let end = lay(&mut ends)?;
        let mut places: Vec<u16> = vec![in heap; 0; end]?;
        for (k, row) in (0..count).zip(self.iter()) {
            for q in row {
                // What is no column is passed over.
                if let Some(next) = ends.get_mut(*q as usize) {
                    // Read once: after a write to `places` it would be read again.
                    let place = *next;
                    *next += 1;
                    places[place] = k;
                }
            }
        }
        Ok(Rows { places, ends })
    }
}

/// How often a row names each number below `columns`; what is no column is passed over.
fn counted(row: &[u16], heap: Global, columns: u16) -> Result<Vec<usize>, AllocError>
    ensures { IfOk result (λ v. v.items ≡ map (λ q. times q row.now) (range_with_len 0 columns)) }
{
    let mut counts: Vec<usize> = vec![in heap; 0; columns as usize]?;
    for q in row {
        if let Some(count) = counts.get_mut(*q as usize) {
            *count += 1;
        }
    }
    Ok(counts)
}

/// Puts in place of each count where its column starts, and says where the last one ends.
/// More places than a `usize` counts are more than there is memory for.
fn lay(counts: &mut [usize]) -> Result<usize, AllocError>
    ensures { IfOk result (λ end. Laid counts.old counts.new end) }
{
    let mut start: usize = 0;
    for count in counts.iter_mut() {
        start = start.checked_add(replace(count, start)).ok_or(AllocError)?;
    }
    Ok(start)
}

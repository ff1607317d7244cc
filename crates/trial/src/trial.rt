//! A trial.
ghost use Rattle.std.specs.Prelude.{vec_capacity};
ghost use Rattle.table.specs.OfTable.{meaning_of};
ghost use Rattle.trial.specs.Standing.{Sized, Equipped, shelf_of, state_of};

use crate::trial::board::Board;
use shelf::Shelf;
use std::marker::Model;
use systems::System;
use walking::walker::Walker;

mod board;
pub mod clearing;
pub mod closing;
pub mod clustering;
mod erasing;
mod finding;
mod finishing;
pub mod opening;
mod passing;
mod peeling;
mod pruning;
pub mod searching;
mod settling;
mod shelving;
mod solving;
mod sweeping;
pub mod viewing;

/// A trial on the code of a table. All its memory is taken when it is opened; no later call allocates.
// Kept: one list for each, since `View`'s public fields lend each as a slice, and the sets of the rules are read off them one by one.
#[derive(Drop)]
pub struct Trial<'t> {
    board: Board<'t>,
    closed: Vec<bool>,
    void: bool,
    number: u32,
    peeled: u16,
    pruned: u16,
    chosen: u16,
    walker: Walker<'t>,
    system: System,
    /// Where qubits are listed that a system is to be over.
    listed: Vec<u16>,
    /// Where qubits are marked that are passed over in a turn of a run.
    passed: Vec<bool>,
    shelf: Shelf,
    ghost sized: { Sized (meaning_of board.erasures.table.now) (state_of board.erasures.status.items board.flipped.items closed.items board.odd.items (shelf_of shelf) void number peeled pruned chosen) },
    ghost equipped: { Equipped board.erasures.table.now (vec_capacity listed) shelf walker.table },
}

impl<'t> Model for Trial<'t> {
    ghost use Rattle.trial.specs.Standing.{Standing};

    // the table, the state as the rules have it, and what is true of every trial
    ghost Value = { Standing };

    ghost use Rattle.trial.specs.Seen.{standing_of};

    ghost view = { standing_of };
}

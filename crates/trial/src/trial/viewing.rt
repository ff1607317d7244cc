//! Looking at a trial.
ghost use Rattle.std.specs.Prelude.{◌≡◌};
ghost use Rattle.trial.specs.Viewed.{viewed};

use super::Trial;
use rules::answers::Status;
use shelf::Shelf;

/// A trial as it stands: the status and the mark of each qubit, the two marks of each check, the shelf, the void mark, the slip's number and the counts.
// Kept: flat, with public fields: a caller reads one mark or count at a time, and a model would hide what the view is there to show.
#[derive(Clone, Copy)]
pub struct View<'a> {
    pub status: &'a [Status],
    pub flipped: &'a [bool],
    pub closed: &'a [bool],
    pub odd: &'a [bool],
    /// The newest entry on top.
    pub shelf: &'a Shelf,
    pub void: bool,
    pub number: u32,
    pub peeled: u16,
    pub pruned: u16,
    pub chosen: u16,
}

impl Trial<'_> {
    /// The trial as it stands.
    pub fn view(&self) -> View<'_>
        ensures { viewed result ≡ self.now.state }
    {
        View {
            status: self.board.erasures.status.as_slice(),
            flipped: self.board.flipped.as_slice(),
            closed: self.closed.as_slice(),
            odd: self.board.odd.as_slice(),
            shelf: &self.shelf,
            void: self.void,
            number: self.number,
            peeled: self.peeled,
            pruned: self.pruned,
            chosen: self.chosen,
        }
    }
}

//! The slip of a trial.
ghost use Rattle.std.specs.Prelude.{◌≡◌};

/// Handed out by an accepted opening and shown to the calls on its trial. It cannot be let go: only a close spends it.
pub struct Slip {
    number: u32,
}

impl Slip {
    pub(crate) fn new(number: u32) -> Slip
        ensures { result.number ≡ number }
    {
        Slip { number }
    }

    /// The number that the slip shares with its trial.
    pub fn number(&self) -> u32
        ensures { result ≡ self.now.number }
    {
        self.number
    }

    /// A close takes the slip back.
    pub(crate) fn spend(self) {
        let Slip { number: _ } = self;
    }
}

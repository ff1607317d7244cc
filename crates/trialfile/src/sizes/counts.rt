//! How many qubits and checks the product code of a seed has.
ghost use Rattle.std.specs.Prelude.{◌≡◌, ◌+◌, ◌*◌};

use super::Sizes;

impl Sizes {
    /// How many qubits the product code of the seed has.
    pub fn qubits(self) -> u16
        ensures { result ≡ self.columns * self.columns + self.rows * self.rows }
    {
        self.rows * self.rows + self.columns * self.columns
    }

    /// How many checks it has.
    pub fn checks(self) -> u16
        ensures { result ≡ self.columns * self.rows }
    {
        self.rows * self.columns
    }
}

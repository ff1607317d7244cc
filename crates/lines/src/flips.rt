//! A line for each flipped qubit.
ghost use Rattle.std.specs.Prelude.{◌≡◌, ◌<◌, ◌^◌, ◌++◌, length, Some, codes};
ghost use Rattle.lines.specs.Lines.{flip_lines};
ghost use Rattle.naming.specs.Lines.{name};
ghost use Rattle.lines.specs.Lines.{flip_line};

use naming::name::Name;
use std::fmt;
use trialfile::sizes::Sizes;

/// The qubits of a product code, a byte each: 1 where it is flipped.
#[derive(Drop)]
pub(crate) struct Flips<'a> {
    pub(crate) sizes: Sizes,
    pub(crate) bytes: &'a [u8],
    ghost few: { length bytes.now < 2 ^ 16 },
}

impl fmt::Display for Flips<'_> {
    ghost output = { λ f. Some (flip_lines f.sizes.rows f.sizes.columns f.bytes.now) };

    fn fmt<W: fmt::Write>(&self, f: &mut fmt::Formatter<W>) -> fmt::Result {
        for (qubit, flipped) in self.bytes.iter().enumerate() {
            if *flipped == 1 {
                let name = name_of(self.sizes, qubit as u16);
                write!(f, "{name}\n")?;
            }
        }
        Ok(())
    }
}

/// The name of a qubit in the grids of a product code.
fn name_of(sizes: Sizes, qubit: u16) -> Name<'static>
    ensures { name result.word.now result.x result.y result.number (codes "\n") ≡ flip_line sizes.rows sizes.columns qubit }
{
    let Sizes { rows, columns } = sizes;
    let pairs = columns * columns;
    if qubit < pairs {
        return Name {
            word: "b",
            x: qubit / columns,
            y: qubit % columns,
            number: qubit,
        };
    }
    Name {
        word: "a",
        x: (qubit - pairs) / rows,
        y: (qubit - pairs) % rows,
        number: qubit,
    }
}

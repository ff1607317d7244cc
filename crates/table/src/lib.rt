//! Any code as plain tables, each question asked once.
#![tactic(auto)]

ghost use Rattle.std.specs.Prelude.{◌≡◌, length};
ghost use Rattle.meaning.specs.Listed.{listed_told};
ghost use Rattle.meaning.specs.Meaning.{Sound};
ghost use Rattle.meaning.specs.Telling.{Tells};
ghost use Rattle.table.specs.Columns.{columns};
ghost use Rattle.table.specs.Held.{held_code};

use crate::incidence::Incidence;
use terms::row::Side;

mod answers;
mod incidence;
mod making;
mod reading;

/// The rows of a code in the order told; for each qubit the checks and the generators that hold it; and the sides.
#[derive(Drop)]
pub struct Table {
    checks: Incidence,
    generators: Incidence,
    sides: Vec<Side>,
    ghost sound: { ∥ Sound (held_code checks.rows generators.rows sides.items) ∥₁ },
    ghost tells: { ∥ Tells (held_code checks.rows generators.rows sides.items) (listed_told checks.rows generators.rows) ∥₁ },
    ghost check_columns: { checks.at ≡ columns (length sides.items) (held_code checks.rows generators.rows sides.items).checks },
    ghost generator_columns: { generators.at ≡ columns (length sides.items) (held_code checks.rows generators.rows sides.items).generators },
}

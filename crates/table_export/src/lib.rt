//! Tables of product codes for a host: a seed in, the number of qubits out. The benchmark calls it.
#![tactic(auto)]

ghost use Rattle.std.specs.Prelude.{◌≡◌, None};
ghost use Rattle.terms.specs.Answering.{AnswersIfMemory};
ghost use Rattle.meaning.specs.Meaning.{qubits};
ghost use Rattle.product.specs.OfProduct.{meaning_of};
ghost use Rattle.table_export.specs.Seeds.{Tells};

use product::place::Place;
use product::product::Product;
use product::seed::Seed;
use std::alloc::Global;
use table::Table;
use terms::refusal::Refusal;

/// How many qubits the product code of a seed has, by its table; 0 for a seed that is refused or for want of memory.
/// The table is made `times` times, and once at least.
// Kept: the seed by its parts, as the C interface has it, and 0 in place of a refusal, for C has no `Result`.
#[unsafe(no_mangle)]
pub extern "C" fn tables_of_product(
    heap: Global,
    rows: u16,
    columns: u16,
    ones: &[Place],
    times: u16,
) -> u16
    ensures { Tells rows columns ones.now result }
{
    let seed = Seed {
        rows,
        columns,
        ones,
    };
    let Ok(code) = Product::new(seed) else {
        return 0;
    };
    for _ in 1..times {
        let _ = counted(heap, &code);
    }
    counted(heap, &code).unwrap_or(0)
}

/// How many qubits a code has, by its table.
fn counted(heap: Global, code: &Product) -> Result<u16, Refusal>
    ensures { AnswersIfMemory result None (λ n. n ≡ qubits (meaning_of code.now)) }
{
    let table = Table::of(heap, code)?;
    Ok(table.qubits())
}

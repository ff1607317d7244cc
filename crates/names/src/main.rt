//! Prints the grid names of a product code beside the stored numbers. Arguments: the seed's numbers of rows and columns, and then row and column
//! of each of its ones.
#![tactic(auto)]

use anyhow::anyhow;
use naming::texts::{names, places_in, refusal_line};
use product::seed::Seed;
use std::alloc::{AllocError, Global};
use std::env;
use std::env::Args;
use terms::refusal::Refusal;

fn main(rt: HostRuntime) -> anyhow::Result<()> {
    let heap = rt.alloc();
    let numbers = match numbers_in(heap, env::args(&rt)?) {
        // Where memory is wanting for the arguments themselves the program ends, and prints no line.
        Err(Refusal::NoMemory) => return Err(AllocError.into()),
        numbers => numbers,
    };
    match numbers.and_then(|numbers| list(heap, numbers.as_slice())) {
        Ok(text) => {
            rt.print(text)?;
            Ok(())
        }
        Err(refusal) => {
            rt.print(refusal_line(heap, refusal)?)?;
            Err(anyhow!("refused"))
        }
    }
}

fn list(heap: Global, numbers: &[u16]) -> Result<String, Refusal> {
    let places = places_in(heap, numbers)?;
    let [rows, columns, ..] = numbers else {
        return Err(Refusal::WrongEnd);
    };
    let seed = Seed {
        rows: *rows,
        columns: *columns,
        ones: places.as_slice(),
    };
    names(heap, seed)
}

/// The arguments after the program's name, if each is a number.
fn numbers_in(heap: Global, arguments: Args) -> Result<Vec<u16>, Refusal> {
    arguments
        .skip(1)
        .map(|argument| argument.parse::<u16>().map_err(|_| Refusal::NotAwaited))
        .try_collect(heap)
}

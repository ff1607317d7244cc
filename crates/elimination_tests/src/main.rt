//! Plays systems to elimination and counts where its answers differ from those of plain enumeration.
#![tactic(auto)]

mod played;
mod small;

use elimination::Elimination;
use played::{Counts, chain, play};
use small::{System, power};

fn main(rt: HostRuntime) -> anyhow::Result<()> {
    let Ok(mut table) = Elimination::<bool>::new(rt.alloc()) else {
        println!(rt; "not enough memory")?;
        return Ok(());
    };
    for unknowns in 0..5u16 {
        let mut counts = Counts::default();
        for checks in 0..4u16 {
            for code in 0..power(checks * (unknowns + 1)) {
                play(
                    &mut table,
                    System {
                        unknowns,
                        checks,
                        code,
                    },
                    &mut counts,
                );
            }
        }
        println!(rt;
            "unknowns {unknowns}: systems {}, with a solution {}, independent rows {}, wrong {}",
            counts.systems, counts.solved, counts.independent, counts.wrong
        )?;
    }
    for unknowns in 254..258u16 {
        match table.begin(unknowns) {
            Ok(()) => {
                let wrong = chain(&mut table, unknowns);
                println!(rt; "unknowns {unknowns}: wrong {wrong}")?;
            }
            Err(refusal) => println!(rt; "unknowns {unknowns}: {}", refusal.wording())?,
        }
    }
    Ok(())
}

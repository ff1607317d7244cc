//! Reads a trial file from standard input, and prints its lines.
#![tactic(auto)]

use filedecode::decode_file;
use std::io::Read;

/// One byte more than the longest file has: what goes on after it is refused whatever it is.
const ENOUGH: u64 = 32769;

fn main(rt: HostRuntime) -> anyhow::Result<()> {
    let heap = rt.alloc();
    let mut file = Vec::new(heap);
    rt.stdin().take(ENOUGH).read_to_end(&mut file)?;
    rt.print(decode_file(heap, &file)?)?;
    Ok(())
}

//! Prints the lines of many trial files. Before each file stands a line: `file`, its number, how many bytes it has, and what it is about.
#![tactic(auto)]

use anyhow::anyhow;
use filedecode::decode_file;
use played::line::Line;
use std::io::{BufRead, BufReader, Read};

fn main(rt: HostRuntime) -> anyhow::Result<()> {
    let heap = rt.alloc();
    let mut input = BufReader::new(heap, rt.stdin())?;
    for _ in 0..u64::MAX {
        let mut head = String::new(heap);
        if input.read_line(&mut head)? == 0 {
            break;
        }
        let head = Line::read(heap, head.as_str(), u32::MAX)?;
        let [number, len, ..] = head.numbers() else {
            return Err(anyhow!("a file without its number and its length"));
        };
        let mut file = Vec::new(heap);
        input.by_ref().take(u64::from(*len)).read_to_end(&mut file)?;
        println!(rt; "file {number}")?;
        rt.print(decode_file(heap, &file)?)?;
    }
    Ok(())
}

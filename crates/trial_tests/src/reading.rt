//! Reading the lines.
use played::line::Line;
use std::io::{BufRead, BufReader};

/// A heading and the steps below it.
#[derive(Drop)]
pub(crate) struct Sequence {
    pub(crate) heading: String,
    pub(crate) steps: Vec<Line>,
}

/// All sequences of standard input. A line before the first heading is passed over.
pub(crate) fn read_sequences(rt: &HostRuntime) -> anyhow::Result<Vec<Sequence>> {
    let heap = rt.alloc();
    let mut sequences: Vec<Sequence> = Vec::new(heap);
    for line in BufReader::new(heap, rt.stdin())?.lines(heap) {
        let heading = line?;
        if heading.as_str().starts_with('#') {
            let steps = Vec::new(heap);
            sequences.push(Sequence { heading, steps })?;
            continue;
        }
        let step = Line::read(heap, heading.as_str(), u32::MAX)?;
        if let Some(sequence) = sequences.last_mut() {
            sequence.steps.push(step)?;
        }
    }
    Ok(sequences)
}

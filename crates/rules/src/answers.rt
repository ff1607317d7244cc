//! What the calls on a trial answer.

/// Where a qubit stands: it is erased, it waits on the shelf with its cluster, or it is done.
#[derive(Clone, Copy, PartialEq, Eq, Debug)]
pub enum Status {
    Erased,
    Shelved,
    Done,
}

/// What became of the cluster that was solved: it waits on the shelf, or its least solution was flipped.
#[derive(Clone, Copy, PartialEq, Eq, Debug)]
pub enum Cluster {
    Shelved,
    Flipped,
}

/// How a run ended: the trial is void; nothing is erased or shelved any more; or something is, and nothing more can be done.
#[derive(Clone, Copy, PartialEq, Eq, Debug)]
pub enum Ending {
    Void,
    Emptied,
    Stopped,
}

/// What a close says of the report: a correction was found; no error fits; or the trial is not at its end.
#[derive(Clone, Copy, PartialEq, Eq, Debug)]
pub enum Outcome {
    Solved,
    Nothing,
    Unfinished,
}

/// What a close answers: the outcome, and how many qubits were peeled and pruned and how much was chosen.
#[derive(Clone, Copy, PartialEq, Eq, Debug)]
pub struct Verdict {
    pub outcome: Outcome,
    pub peeled: u16,
    pub pruned: u16,
    pub chosen: u16,
}

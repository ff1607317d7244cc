//! What is told of a call, as text.
use played::refused::Refused;
use rules::answers::{Cluster, Ending, Outcome, Status, Verdict};
use shelf::Shelf;
use std::fmt;
use terms::refusal::Refusal;
use trial::tally::Counts;
use trial::trial::viewing::View;

/// What a call answered.
#[derive(Drop)]
pub(crate) enum Answer {
    Done,
    Number(u32),
    Solved(Cluster),
    Ended(Ending),
    Closed(Verdict),
    Refused(Refusal),
    /// The line names a code, tally, trial or slip that is not there, or the call is not known.
    Unknown,
}

/// What came of a call that answers nothing to be told.
impl<T: Drop> From<Result<T, Refusal>> for Answer {
    fn from(told: Result<T, Refusal>) -> Answer {
        match told {
            Ok(_) => Answer::Done,
            Err(refusal) => Answer::Refused(refusal),
        }
    }
}

impl Answer {
    pub(crate) fn of_solve(told: Result<Cluster, Refusal>) -> Answer {
        match told {
            Ok(cluster) => Answer::Solved(cluster),
            Err(refusal) => Answer::Refused(refusal),
        }
    }

    pub(crate) fn of_run(told: Result<Ending, Refusal>) -> Answer {
        match told {
            Ok(ending) => Answer::Ended(ending),
            Err(refusal) => Answer::Refused(refusal),
        }
    }
}

impl fmt::Display for Answer {
    fn fmt<W: fmt::Write>(&self, f: &mut fmt::Formatter<W>) -> fmt::Result {
        match self {
            Answer::Done => f.write_str("ok"),
            Answer::Number(number) => write!(f, "ok {number}"),
            Answer::Solved(Cluster::Shelved) => f.write_str("ok shelved"),
            Answer::Solved(Cluster::Flipped) => f.write_str("ok flipped"),
            Answer::Ended(Ending::Void) => f.write_str("ok void"),
            Answer::Ended(Ending::Emptied) => f.write_str("ok emptied"),
            Answer::Ended(Ending::Stopped) => f.write_str("ok stopped"),
            Answer::Closed(verdict) => {
                let word = outcome_word(verdict.outcome);
                let peeled = verdict.peeled;
                let pruned = verdict.pruned;
                let chosen = verdict.chosen;
                write!(f, "ok {word} {peeled} {pruned} {chosen}")
            }
            Answer::Refused(refusal) => write!(f, "{}", Refused(*refusal)),
            Answer::Unknown => f.write_str("unknown"),
        }
    }
}

// Kept: the words of these lines alone; a Display needs a struct around the outcome, and says no more.
fn outcome_word(outcome: Outcome) -> &'static str {
    match outcome {
        Outcome::Solved => "solved",
        Outcome::Nothing => "nothing",
        Outcome::Unfinished => "unfinished",
    }
}

/// All of a trial but its number.
#[derive(Drop)]
pub(crate) struct State<'a>(pub(crate) View<'a>);

impl fmt::Display for State<'_> {
    fn fmt<W: fmt::Write>(&self, f: &mut fmt::Formatter<W>) -> fmt::Result {
        let view = self.0;
        let peeled = view.peeled;
        let pruned = view.pruned;
        let chosen = view.chosen;
        let void = if view.void { "yes" } else { "no" };
        write!(
            f,
            " | counts {peeled} {pruned} {chosen} | void {void} | erased"
        )?;
        write_places(f, view.status, &Status::Erased)?;
        f.write_str(" | shelved")?;
        write_places(f, view.status, &Status::Shelved)?;
        f.write_str(" | flipped")?;
        write_places(f, view.flipped, &true)?;
        f.write_str(" | odd")?;
        write_places(f, view.odd, &true)?;
        f.write_str(" | closed")?;
        write_places(f, view.closed, &true)?;
        write_shelf(f, view.shelf)
    }
}

/// Writes how many entries the shelf has, and of each, the newest first, the check and the qubits.
fn write_shelf<W: fmt::Write>(f: &mut fmt::Formatter<W>, shelf: &Shelf) -> fmt::Result {
    let len = shelf.len();
    write!(f, " | shelf {len}")?;
    for newer in 0..len {
        let Some(entry) = shelf.get(newer) else {
            return Ok(());
        };
        let check = entry.check;
        write!(f, " check {check} with")?;
        for qubit in entry.members {
            write!(f, " {qubit}")?;
        }
    }
    Ok(())
}

/// Writes the places of a list that hold what is wanted.
fn write_places<W: fmt::Write, T: PartialEq>(
    f: &mut fmt::Formatter<W>,
    all: &[T],
    wanted: &T,
) -> fmt::Result {
    for (place, item) in all.iter().enumerate() {
        if item == wanted {
            write!(f, " {place}")?;
        }
    }
    Ok(())
}

/// The four counts of a tally.
#[derive(Drop)]
pub(crate) struct Counted(pub(crate) Counts);

impl fmt::Display for Counted {
    fn fmt<W: fmt::Write>(&self, f: &mut fmt::Formatter<W>) -> fmt::Result {
        let opened = self.0.opened;
        let solved = self.0.solved;
        let nothing = self.0.nothing;
        let unfinished = self.0.unfinished;
        write!(f, " | tally {opened} {solved} {nothing} {unfinished}")
    }
}

/// The bytes of a buffer.
#[derive(Drop)]
pub(crate) struct Bytes<'a>(pub(crate) &'a [u8]);

impl fmt::Display for Bytes<'_> {
    fn fmt<W: fmt::Write>(&self, f: &mut fmt::Formatter<W>) -> fmt::Result {
        f.write_str(" | bytes")?;
        for byte in self.0 {
            write!(f, " {byte}")?;
        }
        Ok(())
    }
}

/// The bytes of a scratch buffer that are not zero, each after its place.
#[derive(Drop)]
pub(crate) struct Scratch<'a>(pub(crate) &'a [u8]);

impl fmt::Display for Scratch<'_> {
    fn fmt<W: fmt::Write>(&self, f: &mut fmt::Formatter<W>) -> fmt::Result {
        f.write_str(" | scratch")?;
        for (place, byte) in self.0.iter().enumerate() {
            if *byte != 0 {
                write!(f, " {place} {byte}")?;
            }
        }
        Ok(())
    }
}

/// What a call answered, and what is told after it: the bytes of a buffer and of a scratch buffer, the trial and the tally of these numbers.
#[derive(Drop)]
pub(crate) struct Told {
    pub(crate) answer: Answer,
    pub(crate) bytes: Option<Vec<u8>>,
    pub(crate) scratch: Option<Vec<u8>>,
    pub(crate) trial: Option<usize>,
    pub(crate) tally: Option<usize>,
}

impl Told {
    fn of(answer: Answer) -> Told {
        Told {
            answer,
            bytes: None,
            scratch: None,
            trial: None,
            tally: None,
        }
    }

    pub(crate) fn unknown() -> Told {
        Told::of(Answer::Unknown)
    }

    pub(crate) fn of_trial(answer: Answer, trial: usize) -> Told {
        Told {
            trial: Some(trial),
            ..Told::of(answer)
        }
    }

    pub(crate) fn of_tally(answer: Answer, tally: usize) -> Told {
        Told {
            tally: Some(tally),
            ..Told::of(answer)
        }
    }
}

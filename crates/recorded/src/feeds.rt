// A case of the stream composer, or of recovery in pieces: scripts/feeds.py and scripts/recovery_feeds.py say how it is told.
use super::answer::{Expected, Finding, hold, read_row, row_told};
use super::reader::operands::{ENTRIES, OUTPUT, Operand, WORDS, read_operand};
use super::reader::slices::{compare, fill};
use super::reader::{Malformed, Reader};
use composer::Composer;
use recoverer::Recoverer;
use rows::{Rank, Row};
use rules::{Fed, RecoveryState, State};

// What is fed.
#[derive(Clone, Copy)]
pub enum Stream {
    Composition,
    Recovery,
}

fn read_state(reader: &mut Reader<'_>) -> Result<State, Malformed> {
    Ok(State {
        done: Row(reader.number()?),
        ranks: Rank(reader.number()?),
        kept: reader.number()?,
    })
}

// The state that a feed is handed: the one that was given back before it, or the one that is told. Whether it is told is 0 or 1.
fn read_handed(reader: &mut Reader<'_>, back: State) -> Result<State, Malformed> {
    let is_told = reader.number()?;
    let told = read_state(reader)?;
    match is_told {
        0 => Ok(back),
        1 => Ok(told),
        _ => Err(Malformed),
    }
}

// A recovery's state has the same three numbers.
fn of_recovery(state: State) -> RecoveryState {
    let State { done, ranks, kept } = state;
    RecoveryState { done, ranks, kept }
}

fn from_recovery(state: RecoveryState) -> State {
    let RecoveryState { done, ranks, kept } = state;
    State { done, ranks, kept }
}

fn fresh(stream: Stream) -> State {
    match stream {
        Stream::Composition => Composer::fresh(),
        Stream::Recovery => from_recovery(Recoverer::fresh()),
    }
}

fn compose(state: State, s: Operand<'_>, r: Operand<'_>, out: &mut [u64]) -> Fed<State> {
    composer::feed(state, s.form, s.words, s.rows, r.form, r.words, r.rows, out)
}

fn recover(state: State, s: Operand<'_>, k: Operand<'_>, out: &mut [u64]) -> Fed<State> {
    let handed = of_recovery(state);
    let Fed { answer, state } = recoverer::feed(
        handed, s.form, s.words, s.rows, k.form, k.words, k.rows, out,
    );
    Fed {
        answer,
        state: from_recovery(state),
    }
}

// One feed, and what it gave and left held to what is told of it. The state that it gave back.
fn run_feed(
    reader: &mut Reader<'_>,
    stream: Stream,
    back: State,
    out: &mut [u64],
) -> Result<State, Finding> {
    let mut swords = [0u64; WORDS];
    let mut srows = [0u32; ENTRIES];
    let mut owords = [0u64; WORDS];
    let mut orows = [0u32; ENTRIES];
    let handed = read_handed(reader, back)?;
    let s = read_operand(reader, &mut swords, &mut srows)?;
    let other = read_operand(reader, &mut owords, &mut orows)?;
    let given = match stream {
        Stream::Composition => compose(handed, s, other, out),
        Stream::Recovery => recover(handed, s, other, out),
    };
    let expected = Expected::read(reader)?;
    let row = read_row(reader, matches!(stream, Stream::Recovery))?;
    let state = read_state(reader)?;
    let same = compare(reader, out)?;
    expected.hold(given.answer)?;
    hold(row_told(given.answer) == row, Finding::RowDiffers)?;
    hold(given.state == state, Finding::StateDiffers)?;
    hold(same, Finding::OutputDiffers)?;
    Ok(given.state)
}

// Every feed in turn, up to the first that differs, over an output slice that holds what it is to hold before.
pub fn run_case(stream: Stream, reader: &mut Reader<'_>) -> Result<(), Finding> {
    let mut room = [0u64; OUTPUT];
    let feeds = reader.digits();
    let before = fill(reader, &mut room);
    // what is malformed here is told of the first later case that has feeds, or of the end
    if feeds == 0 {
        return Ok(());
    }
    let out = before?;
    let mut state = fresh(stream);
    for _ in 0..feeds {
        state = run_feed(reader, stream, state, out)?;
    }
    Ok(())
}

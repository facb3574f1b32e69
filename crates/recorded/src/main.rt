// Runs the recorded cases of data/ and holds every answer and all of each output slice to what is recorded there. README.md
// says where each file's answers come from.
#![tactic(auto)]

use answer::Finding;
use feeds::Stream;
use input::read_full;
use reader::Reader;
use std::rt::Files;
use std::{fmt, fs, io};

mod answer;
mod conversions;
mod feeds;
mod input;
mod pairs;
mod reader;
mod words;

// What a file has cases of.
#[derive(Clone, Copy)]
enum Subject {
    Conversions,
    Pairs,
    Feeds,
    RecoveryFeeds,
    Words,
}

// The first case that differs, counted from 1, and what differs there.
#[derive(Clone, Copy)]
struct Failure {
    case: u64,
    finding: Finding,
}

impl fmt::Display for Failure {
    fn fmt<W: fmt::Write>(&self, f: &mut fmt::Formatter<W>) -> fmt::Result {
        let Failure { case, finding } = *self;
        write!(f, "case {case}: {finding}")
    }
}

// Each case has room of its own for what it reads and writes.
fn run_case(subject: Subject, reader: &mut Reader<'_>) -> Result<(), Finding> {
    match subject {
        Subject::Conversions => conversions::run_case(reader),
        Subject::Pairs => pairs::run_case(reader),
        Subject::Feeds => feeds::run_case(Stream::Composition, reader),
        Subject::RecoveryFeeds => feeds::run_case(Stream::Recovery, reader),
        Subject::Words => words::run_case(reader),
    }
}

// Every case in turn, up to the first that differs: how many agreed, counted as they are gone through. The text starts with their number, and
// nothing may stand after the last of them.
fn run_all(subject: Subject, text: &[u8]) -> Result<u64, Failure> {
    let mut reader = Reader::new(text);
    let total = reader.digits();
    let mut agreed: u64 = 0;
    for _ in 0..total {
        run_case(subject, &mut reader).map_err(|finding| Failure {
            case: agreed.wrapping_add(1),
            finding,
        })?;
        agreed = agreed.wrapping_add(1);
    }
    if !reader.at_end() {
        return Err(Failure {
            case: agreed.wrapping_add(1),
            finding: Finding::Malformed,
        });
    }
    Ok(agreed)
}

// A file that cannot be opened is told on standard error, and the others are run all the same.
fn run_file<R: Files + Print + Eprint>(rt: &R, subject: Subject, name: &str) -> io::Result<()> {
    let mut opened = match fs::open(rt, name) {
        Ok(opened) => opened,
        Err(error) => return eprintln!(rt; "{name}: {error}"),
    };
    let mut file = [0u8; 500000];
    // what came before a read that failed is run
    let (size, _) = read_full(&mut opened, &mut file);
    print!(rt; "{name}: ")?;
    match run_all(subject, &file[..size]) {
        Ok(cases) => println!(rt; "{cases} cases, 0 differ"),
        Err(failure) => println!(rt; "{failure}"),
    }
}

fn main(rt: HostRuntime) -> io::Result<()> {
    run_file(&rt, Subject::Conversions, "conversions")?;
    run_file(&rt, Subject::Pairs, "pairs")?;
    run_file(&rt, Subject::Feeds, "feeds")?;
    run_file(&rt, Subject::Pairs, "recoveries")?;
    run_file(&rt, Subject::RecoveryFeeds, "recovery_feeds")?;
    run_file(&rt, Subject::Pairs, "rust_pairs")?;
    run_file(&rt, Subject::Conversions, "rust_conversions")?;
    run_file(&rt, Subject::Words, "rust_words")
}

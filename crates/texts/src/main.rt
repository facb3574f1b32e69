// Runs the cases of data/, which scripts/texts.py wrote: `names` has their names, a file of that name the input, and one with `.answer`
// after the name the text that is to be written for it.
#![tactic(auto)]

use case::{Finding, run_case};
use files::read_file;
use std::io;
use std::io::Write;
use std::rt::Files;

mod case;
mod files;
mod input;

// A finding, and the name of the case that it is against; none where it is against the table of the names itself.
#[derive(Clone, Copy)]
struct Failure<'a> {
    name: Option<&'a [u8]>,
    finding: Finding,
}

fn table_failure(finding: Finding) -> Failure<'static> {
    Failure {
        name: None,
        finding,
    }
}

// Every name in turn, up to the first whose case differs: how many agreed, counted as they are gone through. A last line without its newline is not
// taken.
fn run_all<'a, R: Files>(rt: &R, table: &'a [u8]) -> Result<u64, Failure<'a>> {
    let mut agreed: u64 = 0;
    for line in table.split_inclusive(|byte| *byte == b'\n') {
        let [name @ .., b'\n'] = line else {
            return Err(table_failure(Finding::NoLastEnd));
        };
        run_case(rt, name).map_err(|finding| Failure {
            name: Some(name),
            finding,
        })?;
        agreed = agreed.wrapping_add(1);
    }
    Ok(agreed)
}

// How many cases agreed. A table that fills its room may have been cut, and one without names shows nothing.
fn run_table<'a, R: Files>(rt: &R, room: &'a mut [u8]) -> Result<u64, Failure<'a>> {
    let len = read_file(rt, b"names", room).map_err(|_| table_failure(Finding::NoTable))?;
    if len == room.len() {
        return Err(table_failure(Finding::LongTable));
    }
    match run_all(rt, &room[..len])? {
        0 => Err(table_failure(Finding::NoNames)),
        agreed => Ok(agreed),
    }
}

fn main(rt: HostRuntime) -> io::Result<()> {
    let mut table = [0u8; 4096];
    match run_table(&rt, &mut table) {
        Ok(agreed) => println!(rt; "texts: {agreed} cases, 0 differ"),
        Err(
            Failure {
                name: None,
                finding,
            },
        ) => println!(rt; "names: {finding}"),
        Err(
            Failure {
                name: Some(name),
                finding,
            },
        ) => {
            io::writer(&rt).write_all(name)?;
            println!(rt; ": {finding}")
        }
    }
}

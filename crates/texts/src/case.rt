// A case: an input, and the text that is to be written for it.
use super::files::{read_answer, read_file};
use lines::Written;
use rows::{Reason, Refusal};
use std::fmt;
use std::rt::Files;

// What stands in an output before it is lent. No text has this byte.
const MARK: u8 = 170;

// What is found against the table of the names or against a case.
#[derive(Clone, Copy)]
pub enum Finding {
    NoTable,
    LongTable,
    NoLastEnd,
    NoNames,
    BadName,
    NoInput,
    NoAnswer,
    TextDiffers,
    EightDiffers,
}

impl fmt::Display for Finding {
    fn fmt<W: fmt::Write>(&self, f: &mut fmt::Formatter<W>) -> fmt::Result {
        f.write_str(match self {
            Finding::NoTable => "cannot be read",
            Finding::LongTable => "too long",
            Finding::NoLastEnd => "the last line has no end",
            Finding::NoNames => "no names",
            Finding::BadName => "no name of 1 to 32 bytes",
            Finding::NoInput => "the input cannot be read",
            Finding::NoAnswer => "the answer cannot be read",
            Finding::TextDiffers => "the text differs",
            Finding::EightDiffers => "the answer to a shorter output differs",
        })
    }
}

// Nothing was written over any of these bytes.
fn untouched(bytes: &[u8]) -> bool {
    bytes.iter().all(|byte| *byte == MARK)
}

// The text for the input is this one, and the bytes after it are as they were.
fn tells(input: &[u8], text: &[u8]) -> bool {
    let mut out = [MARK; 8228];
    let written = text::answer(input, &mut out);
    let (told, later) = out.split_at(written.len);
    told == text && untouched(later)
}

// A refusal 8 as document 01 has it, and no text.
fn is_eight(written: Written) -> bool {
    matches!(
        written,
        Written {
            answer: Err(Refusal {
                reason: Reason::NoRoom,
                operand: None,
            }),
            len: 0,
        }
    )
}

// An output that is a byte shorter than the text gets 8, and is as it was.
fn refuses_shorter(input: &[u8], text: &[u8]) -> bool {
    if text.is_empty() || text.len() > 8228 {
        return false;
    }
    let mut out = [MARK; 8228];
    let short = text.len() - 1;
    let written = text::answer(input, &mut out[..short]);
    is_eight(written) && untouched(&out)
}

fn hold(input: &[u8], text: &[u8]) -> Result<(), Finding> {
    if !tells(input, text) {
        return Err(Finding::TextDiffers);
    }
    if !refuses_shorter(input, text) {
        return Err(Finding::EightDiffers);
    }
    Ok(())
}

pub fn run_case<R: Files>(rt: &R, name: &[u8]) -> Result<(), Finding> {
    if name.is_empty() || name.len() > 32 {
        return Err(Finding::BadName);
    }
    // as many bytes as the program reads
    let mut input = [0u8; 16397];
    let n = read_file(rt, name, &mut input).map_err(|_| Finding::NoInput)?;
    // a byte more than the longest text has, so that a longer file differs
    let mut text = [0u8; 8229];
    let m = read_answer(rt, name, &mut text).map_err(|_| Finding::NoAnswer)?;
    hold(&input[..n], &text[..m])
}

// Both functions over a reader that gives all at once, or a byte or two at a time, or fails on the way. What was not read into stays.
use super::*;
use std::test::Fail;

// Gives `step` bytes a read at most, with 0 nothing. After `good` reads one fails, and it goes on.
#[derive(Drop)]
struct Halting<'a> {
    rest: &'a [u8],
    step: usize,
    good: u8,
}

impl Read for Halting<'_> {
    fn read(&mut self, buf: &mut [u8]) -> io::Result<usize> {
        if self.good == 0 {
            self.good = u8::MAX;
            return Err(io::Error::from(io::ErrorKind::WouldBlock));
        }
        self.good -= 1;
        let len = self.step.min(buf.len());
        self.rest.read(&mut buf[..len])
    }
}

fn leaks(step: usize, good: u8) -> Halting<'static> {
    Halting {
        rest: b"leaks",
        step,
        good,
    }
}

fn failed<T>(ended: &io::Result<T>) -> bool {
    matches!(ended, Err(error) if error.kind() == io::ErrorKind::WouldBlock)
}

fn holds(it: bool, what: &'static str) -> Result<(), Fail> {
    if it { Ok(()) } else { Err(Fail::new(what)) }
}

#[test]
fn reads_until_the_end_or_until_out_is_full() -> Result<(), Fail> {
    // where out is full after `good` reads, none is made that would fail
    for (room, step, good, len, want) in [
        (8, 8, 9, 5, "leaks..."),
        (8, 1, 9, 5, "leaks..."),
        (8, 0, 9, 0, "........"),
        (5, 2, 3, 5, "leaks..."),
        (3, 2, 2, 3, "lea....."),
        (0, 1, 0, 0, "........"),
    ] {
        let mut out = [b'.'; 8];
        let (n, ended) = read_full(&mut leaks(step, good), &mut out[..room]);
        holds(
            ended.is_ok() && n == len && out.as_slice() == want.as_bytes(),
            "read_full",
        )?;
        let mut out = [b'.'; 8];
        let n = read_all(&mut leaks(step, good), &mut out[..room])?;
        holds(n == len && out.as_slice() == want.as_bytes(), "read_all")?;
    }
    Ok(())
}

#[test]
fn a_read_that_fails_is_not_the_end() -> Result<(), Fail> {
    for (good, len, want) in [
        (0, 0, "........"),
        (1, 2, "le......"),
        (2, 4, "leak...."),
        (3, 5, "leaks..."),
    ] {
        let mut out = [b'.'; 8];
        let (n, ended) = read_full(&mut leaks(2, good), &mut out);
        holds(
            failed(&ended) && n == len && out.as_slice() == want.as_bytes(),
            "read_full",
        )?;
        let mut out = [b'.'; 8];
        let ended = read_all(&mut leaks(2, good), &mut out);
        holds(
            failed(&ended) && out.as_slice() == want.as_bytes(),
            "read_all",
        )?;
    }
    Ok(())
}

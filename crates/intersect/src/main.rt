// Document 01's program: the text of all of standard input, to standard output.
#![tactic(auto)]

use input::read_all;
use std::io;
use std::io::Write;

mod input;

fn main(rt: HostRuntime) -> io::Result<()> {
    // one byte more than the longest well formed input has: what is cut off changes nothing (`text_cut`)
    let mut input = [0u8; 16397];
    // a read that fails leaves no bytes, and no bytes are malformed: 13 (`nothing_is_13`)
    let n = read_all(&mut rt.stdin(), &mut input).unwrap_or(0);
    // as long as the longest text, so that all of it is written (`always_room`)
    let mut out = [0u8; 8228];
    let written = text::answer(&input[..n], &mut out);
    io::writer(&rt).write_all(&out[..written.len])
}

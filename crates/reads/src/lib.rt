// What a reader has, read into lent bytes. A read that fails is not the end: what came before it is not all.
// For other crates that read: the programs have their own, in the same words (docs/DECISIONS.md). No contract can say what a reader gives, so these
// admit more than one answer (docs/EXCEPTIONS.md).
#![tactic(auto)]

ghost use Rattle.std.specs.Prelude.{◌≡◌, ◌<◌, ◌≤◌, length, take, IfOk, IsOk};
ghost use Rattle.std.specs.Io.KnownBytes.{Consumes, IsAtEnd};

use std::io;
use std::io::Read;

#[cfg(test)]
mod tests;

// Reads until the end, until out is full, or until a read fails. Tells how many bytes came, and how the reading ended.
pub fn read_full<R: Read>(reader: &mut R, out: &mut [u8]) -> (usize, io::Result<()>)
    ensures in_bounds { result.0 ≤ length out.new }
    ensures prefix { result.0 ≡ length (take result.0 out.new) }
    ensures bytes { Consumes (R.remaining reader.old) (R.remaining reader.new) (take result.0 out.new) }
    ensures end { IsOk result.1 → result.0 < length out.new → IsAtEnd (R.remaining reader.new) }
{
    // `Read::read_exact` tells no length where the reader ends early or fails: what came is counted here.
    let mut done: usize = 0;
    while done < out.len() {
        match reader.read(&mut out[done..]) {
            Ok(0) => break,
            Ok(len) => done += len,
            Err(error) => return (done, Err(error)),
        }
    }
    (done, Ok(()))
}

// Reads until the end, or until out is full: what is longer fills it. Tells how many bytes there are.
pub fn read_all<R: Read>(reader: &mut R, out: &mut [u8]) -> io::Result<usize>
    ensures in_bounds { IfOk result (λ len. len ≤ length out.new) }
    ensures prefix { IfOk result (λ len. len ≡ length (take len out.new)) }
    ensures bytes { IfOk result (λ len. Consumes (R.remaining reader.old) (R.remaining reader.new) (take len out.new)) }
    ensures end { IfOk result (λ len. len < length out.new → IsAtEnd (R.remaining reader.new)) }
{
    let (len, ended) = read_full(reader, out);
    ended?;
    Ok(len)
}

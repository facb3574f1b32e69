// Holds the whole-number tests that choose a route to the tests on the density that answers carry: at every length up to
// 65,536 and at the counts around the place where a test turns.
#![tactic(auto)]

ghost use Rattle.std.specs.Prelude.{◌≡◌, ◌+◌, ◌≤◌, ◌<◌};
ghost use Rattle.std.specs.Float.Ieee.{lt};
ghost use Rattle.rules.specs.Answer.{density_of};

use routes::inner::few;
use std::{fmt, io};

// How many pairs of a count and a length were compared, and at how many of them the two tests differ.
#[derive(Clone, Copy)]
struct Tally {
    compared: u64,
    differing: u64,
}

impl fmt::Display for Tally {
    fn fmt<W: fmt::Write>(&self, f: &mut fmt::Formatter<W>) -> fmt::Result {
        let Tally {
            compared,
            differing,
        } = *self;
        write!(f, "{compared} compared, {differing} differ")
    }
}

// What `few` tests, which a route rests on, on the density that an answer carries, as the Rust tests a sixteenth.
fn thin(bound: f64, count: u64, length: u64) -> bool
    requires { (count ≤ 1048576) × (length ≤ 1048576) }
    ensures { result ≡ lt (density_of count length) bound }
{
    operand::inner::answers::density(count, length) < bound
}

fn differ(factor: u32, bound: f64, count: u64, length: u64) -> bool
    requires { (count ≤ 1048576) × (length ≤ 1048576) }
{
    few(factor, count, length) != thin(bound, count, length)
}

// One length, at the counts within two of the place where the test turns: that is where rounding could tell.
fn compare_counts(factor: u32, bound: f64, length: u64) -> Tally
    requires { (0 < factor) × (length ≤ 65536) }
    ensures { (result.compared ≤ 65537) × (result.differing ≤ 65537) }
{
    let turn = length / u64::from(factor);
    let first = turn.saturating_sub(2);
    let end = (turn + 3).min(length + 1);
    let mut compared: u64 = 0;
    let mut differing: u64 = 0;
    for count in first..end {
        compared += 1;
        // a number, so that the loop adds it with no branch
        differing += u64::from(differ(factor, bound, count, length));
    }
    Tally {
        compared,
        differing,
    }
}

// Every length that document 01 asks for.
fn compare_lengths(factor: u32, bound: f64) -> Tally
    requires { 0 < factor }
{
    let mut compared: u64 = 0;
    let mut differing: u64 = 0;
    for length in 1..65537 {
        let tally = compare_counts(factor, bound, length);
        compared += tally.compared;
        differing += tally.differing;
    }
    Tally {
        compared,
        differing,
    }
}

fn main(rt: HostRuntime) -> io::Result<()> {
    // each label is written before the work that it names
    print!(rt; "sixteenths: ")?;
    println!(rt; "{}", compare_lengths(16, 1.0 / 16.0))?;
    print!(rt; "thirty-seconds: ")?;
    println!(rt; "{}", compare_lengths(32, 1.0 / 32.0))
}

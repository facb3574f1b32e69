// The rows of runs over lent words, from any bit on: zeros and ones by turns, each filled as far as it goes; or ones where all was cleared.
ghost use Rattle.std.specs.Prelude.{◌≡◌, true, false, ◌++◌, ◌+◌, ◌-◌, ◌≤◌, ◌<◌, replicate};
ghost use Rattle.rows.specs.Runs.{in_runs, Apart};
ghost use Rattle.rows.specs.Laid.{laid};
ghost use Rattle.rows.specs.Asks.{Room};

use laid::inner::{clear, fill, put, set_bit};

// Zeros from row done to the run, and the run.
pub fn lay_run(done: u64, first: u64, past: u64, at: u64, out: &mut [u64])
    requires { (done ≤ first) × (first ≤ past) × Room at past out.old }
    ensures { out.new ≡ laid (at + done) (replicate (first - done) false ++ replicate (past - first) true) out.old }
{
    clear(out, at + done, first - done);
    fill(out, at + first, past - first);
}

// The len rows that the runs say, where they are few: each gap and each run as far as it goes, so that no word between is written twice.
// Apart from what calls it (`inline(never)`), so that its loop has the registers to itself.
#[inline(never)]
fn lay_in_turn(runs: &[u32], len: u64, at: u64, out: &mut [u64])
    requires { Apart 0 len runs.now × Room at len out.old }
    ensures { out.new ≡ laid at (in_runs len runs.now) out.old }
{
    let mut done: u64 = 0;
    for i in (0..runs.len()).step_by(2) {
        let first = runs[i] as u64;
        let past = runs[i + 1] as u64;
        lay_run(done, first, past, at, out);
        done = past;
    }
    clear(out, at + done, len - done);
}

// A run set, and nothing between. One of a word's length or less is one write, and one row the shortest.
pub fn set_run(out: &mut [u64], at: u64, first: u64, past: u64)
    requires { (first < past) × Room at past out.old }
    ensures { out.new ≡ laid (at + first) (replicate (past - first) true) out.old }
{
    let n = past - first;
    let bit = at + first;
    if n == 1 {
        set_bit(out, bit);
        return;
    }
    if n <= 64 {
        put(out, bit, n, u64::MAX);
        return;
    }
    fill(out, bit, n);
}

// The same where they are many: all is cleared at once, and then each run is set.
// Apart from what calls it (`inline(never)`), so that its loop has the registers to itself.
#[inline(never)]
fn fill_runs(runs: &[u32], len: u64, at: u64, out: &mut [u64])
    requires { Apart 0 len runs.now × Room at len out.old }
    ensures { out.new ≡ laid at (in_runs len runs.now) out.old }
{
    clear(out, at, len);
    for i in (0..runs.len()).step_by(2) {
        let first = runs[i] as u64;
        let past = runs[i + 1] as u64;
        set_run(out, at, first, past);
    }
}

// The len rows that the runs say, row 0 at bit at. Where a run has 2048 rows or less to itself, what it costs to clear all is less than a write for
// each gap.
pub fn lay_runs(runs: &[u32], len: u64, at: u64, out: &mut [u64])
    requires { Apart 0 len runs.now × Room at len out.old }
    ensures { out.new ≡ laid at (in_runs len runs.now) out.old }
{
    if runs.len() as u64 > len / 4096 {
        fill_runs(runs, len, at, out);
        return;
    }
    lay_in_turn(runs, len, at, out);
}

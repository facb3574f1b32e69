// The kernels: each lays the composition from bit at on, and tells how many rows it has laid.
ghost use Rattle.std.specs.Prelude.{◌≡◌, ◌+◌, ◌*◌, ◌≤◌, length, drop};
ghost use Rattle.rows.specs.Rows.{count, compose};
ghost use Rattle.rows.specs.Words.{bits_of_all};
ghost use Rattle.rows.specs.Lists.{listed, Ascending};
ghost use Rattle.rows.specs.Runs.{in_runs, run_lengths, Apart};
ghost use Rattle.rows.specs.Laid.{laid};
ghost use Rattle.rows.specs.Asks.{Room};

use super::copies::copy_ranks;
use super::entries::mark_entries;
use super::gathers::gather_under_runs;
use super::windows::mark_runs;
use books::inner::clear_rows;
use laid::inner::clear;
use rows::{Rank, Row};

// Self in runs, the rank mask in words: each run takes as many rank bits as it has rows, and what is between is cleared.
// Apart from what calls it (`inline(never)`), so that its loops have the registers to themselves.
#[inline(never)]
pub fn lay_ranks_under_runs(
    runs: &[u32],
    ranks: &[u64],
    from: u64,
    len: u64,
    at: u64,
    out: &mut [u64],
) -> u64
    requires { Apart 0 len runs.now × (len ≤ 1048576) × (from ≤ 63) × (from + run_lengths runs.now ≤ length ranks.now * 64) × Room at len out.old }
    ensures { (result ≡ count (compose (in_runs len runs.now) (drop from (bits_of_all 64 ranks.now))))
        × (out.new ≡ laid at (compose (in_runs len runs.now) (drop from (bits_of_all 64 ranks.now))) out.old) }
{
    let mut done: u64 = 0;
    let mut rank: u64 = 0;
    let mut sum: u64 = 0;
    for &[first, past] in runs.as_chunks::<2>().0 {
        let first = first as u64;
        let past = past as u64;
        let gap = first - done;
        let held = past - first;
        clear_rows(out, at, Row(done), gap);
        let set = copy_ranks(ranks, from, Rank(rank), held, at, Row(first), out);
        sum += set;
        rank += held;
        done = past;
    }
    let left = len - done;
    clear_rows(out, at, Row(done), left);
    sum
}

// Self in runs, the rank mask a list of so many ranks. Where at least every fourth is listed the rank bits are gathered; else that part of the output is
// cleared, and the row of each listed rank is marked in it.
// Apart from what calls it (`inline(never)`), so that its loops have the registers to themselves.
#[inline(never)]
pub fn lay_entries_in_runs(
    runs: &[u32],
    ranks: &[u32],
    ranklen: u64,
    len: u64,
    at: u64,
    out: &mut [u64],
) -> u64
    requires { Apart 0 len runs.now × Ascending 0 (run_lengths runs.now) ranks.now × (len ≤ 1048576) × Room at len out.old }
    ensures { (result ≡ count (compose (in_runs len runs.now) (listed (run_lengths runs.now) ranks.now)))
        × (out.new ≡ laid at (compose (in_runs len runs.now)
        (listed (run_lengths runs.now) ranks.now)) out.old) }
{
    let listed = ranks.len() as u64;
    if listed > ranklen / 4 {
        gather_under_runs(runs, ranks, len, at, out);
        return listed;
    }
    clear(out, at, len);
    mark_entries(runs, ranks, len, at, out);
    listed
}

// Self and the rank mask in runs: that part of the output is cleared, and run by run the rows are marked whose ranks the rank mask has.
// Apart from what calls it (`inline(never)`), so that its loops have the registers to themselves.
#[inline(never)]
pub fn lay_runs_in_runs(runs: &[u32], ranks: &[u32], len: u64, at: u64, out: &mut [u64]) -> u64
    requires { Apart 0 len runs.now × Apart 0 (run_lengths runs.now) ranks.now × (len ≤ 1048576) × Room at len out.old }
    ensures { (result ≡ count (compose (in_runs len runs.now) (in_runs (run_lengths runs.now) ranks.now)))
        × (out.new ≡ laid at (compose (in_runs len runs.now)
        (in_runs (run_lengths runs.now) ranks.now)) out.old) }
{
    clear(out, at, len);
    mark_runs(runs, ranks, len, at, out)
}

// The kernels: each lays the composition from bit at on, and tells how many rows it has laid.
ghost use Rattle.std.specs.Prelude.{◌≡◌, length};
ghost use Rattle.rows.specs.Rows.{count, compose};
ghost use Rattle.rows.specs.Words.{view};
ghost use Rattle.rows.specs.Lists.{listed, Ascending};
ghost use Rattle.rows.specs.Runs.{in_runs, Apart};
ghost use Rattle.rows.specs.Laid.{laid};
ghost use Rattle.rows.specs.Asks.{Room, InView};
ghost use Rattle.marks.specs.Entries.{entries};

use super::chunks::{Walk, keep_chunks};
use super::entries::mark_spans;
use super::whole::keep_whole;
use laid::inner::clear;
use marks::inner::Numbers;
use rows::Rank;

// Self in words, the rank mask in runs: whole words first where the output begins on one.
// Apart from what calls it (`inline(never)`), so that its loops have the registers to themselves.
#[inline(never)]
pub fn keep_words(
    words: &[u64],
    start: u64,
    len: u64,
    ranks: &[u32],
    at: u64,
    out: &mut [u64],
) -> u64
    requires { InView start len words.now × Room at len out.old × Apart 0 (count (view start len words.now)) ranks.now }
    ensures { (result ≡ count (compose (view start len words.now) (in_runs (count (view start len words.now)) ranks.now)))
        × (out.new ≡ laid at (compose (view start len words.now)
        (in_runs (count (view start len words.now)) ranks.now)) out.old) }
{
    if at % 64 != 0 {
        let fresh = Walk {
            rank: Rank(0),
            next: 0,
            held: 0,
        };
        return keep_chunks(words, start, len, ranks, fresh, at, out);
    }
    let n = (len / 64) as usize;
    let reached = keep_whole(words, start, n, ranks, (at / 64) as usize, out);
    let done = len / 64 * 64;
    keep_chunks(
        words,
        start + done,
        len - done,
        ranks,
        reached,
        at + done,
        out,
    )
}

// Self a list, or runs of one row each, the rank mask in runs: that part of the output is cleared, and the entries from each run's first rank to its
// last are marked in it.
// Apart from what calls it (`inline(never)`), so that its loops have the registers to themselves.
#[inline(never)]
pub fn lay_entries_by_runs(
    rows: &[u32],
    numbers: Numbers,
    ranks: &[u32],
    len: u64,
    at: u64,
    out: &mut [u64],
) -> u64
    requires { Ascending 0 len (entries numbers rows.now) × Apart 0 (length (entries numbers rows.now)) ranks.now × Room at len out.old }
    ensures { (result ≡ count (compose (listed len (entries numbers rows.now)) (in_runs (length (entries numbers rows.now)) ranks.now)))
        × (out.new ≡ laid at (compose (listed len (entries numbers rows.now))
        (in_runs (length (entries numbers rows.now)) ranks.now)) out.old) }
{
    clear(out, at, len);
    mark_spans(rows, numbers, ranks, len, at, out)
}

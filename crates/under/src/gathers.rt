// A long rank list on self in runs: the rank bits of each run are gathered from the list, a word of them at a time. One write for a word costs less
// than a mark for each of its ranks.
ghost use Rattle.std.specs.Prelude.{◌≡◌, ◌+◌, ◌≤◌};
ghost use Rattle.rows.specs.Rows.{compose};
ghost use Rattle.rows.specs.Lists.{tab, member, listed, Ascending};
ghost use Rattle.rows.specs.Runs.{in_runs, run_lengths, Apart};
ghost use Rattle.rows.specs.Laid.{laid};
ghost use Rattle.rows.specs.Asks.{Room};
ghost use Rattle.books.specs.Gathers.{Parted};

use books::inner::{clear_rows, put_rows, rank_bits_for_chunk};
use lent::inner::chunk_len;
use rows::{Rank, Row};

// The n rank bits from a rank on, as rows from a row on. Entries before next are of earlier ranks; which is the first of a later one.
fn copy_entries(
    ranks: &[u32],
    next: usize,
    rank: Rank,
    n: u64,
    at: u64,
    row: Row,
    out: &mut [u64],
) -> usize
    requires { (rank.0 + n ≤ 1048576) × Parted rank.0 next ranks.now × Room (at + row.0) n out.old }
    ensures { Parted (rank.0 + n) result ranks.now
        × (out.new ≡ laid (at + row.0) (tab rank.0 n (λ i. member i ranks.now)) out.old) }
{
    let mut j = next;
    for done in (0..n).step_by(64) {
        let some = chunk_len(n, done);
        let place = rank.0 + done;
        let gathered = rank_bits_for_chunk(ranks, j, Rank(place), some);
        let here = row.0 + done;
        put_rows(out, at, Row(here), some, gathered.bits);
        j = gathered.next;
    }
    j
}

// Each run takes the rank bits of as many ranks as it has rows, and what is between is cleared.
pub fn gather_under_runs(runs: &[u32], ranks: &[u32], len: u64, at: u64, out: &mut [u64])
    requires { Apart 0 len runs.now × Ascending 0 (run_lengths runs.now) ranks.now × (len ≤ 1048576) × Room at len out.old }
    ensures { out.new ≡ laid at (compose (in_runs len runs.now)
        (listed (run_lengths runs.now) ranks.now)) out.old }
{
    let mut done: u64 = 0;
    let mut rank: u64 = 0;
    let mut next: usize = 0;
    for &[first, past] in runs.as_chunks::<2>().0 {
        let first = first as u64;
        let past = past as u64;
        let gap = first - done;
        let held = past - first;
        clear_rows(out, at, Row(done), gap);
        next = copy_entries(ranks, next, Rank(rank), held, at, Row(first), out);
        rank += held;
        done = past;
    }
    let left = len - done;
    clear_rows(out, at, Row(done), left);
}

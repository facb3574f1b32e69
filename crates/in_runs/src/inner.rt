// The kernels: each lays the recovery from bit at on, a bit for each of self's set rows.
ghost use Rattle.std.specs.Prelude.{◌≡◌, true, false, ◌++◌, ◌+◌, ◌*◌, ◌≤◌, length, replicate};
ghost use Rattle.rows.specs.Rows.{count, recover, outside};
ghost use Rattle.rows.specs.Words.{view};
ghost use Rattle.rows.specs.Runs.{in_runs, run_lengths, Apart};
ghost use Rattle.rows.specs.Laid.{laid};
ghost use Rattle.rows.specs.Asks.{Room, InView};
ghost use Rattle.rules.specs.Operand.{lent, rows_of, length_of, count_of, Accepted};

use super::skips::{skip_rows, skip_set};
use fills::inner::lay::lay_run;
use laid::inner::{clear, copy_bits};
use rows::{Rank, Row};
use rules::Form;

// The n rows from a row on, as ranks from a rank on.
fn copy_rows(kept: &[u64], from: u64, row: Row, n: u64, at: u64, rank: Rank, out: &mut [u64])
    requires { (from ≤ 63) × (row.0 + n ≤ 1048576) × (from + row.0 + n ≤ length kept.now * 64) × Room (at + rank.0) n out.old }
    ensures { out.new ≡ laid (at + rank.0) (view (from + row.0) n kept.now) out.old }
{
    copy_bits(kept, from + row.0, n, at + rank.0, out);
}

// Self in runs, the second mask in words: the rows under each run are copied, one run behind the other.
pub fn recover_under_runs(runs: &[u32], kept: &[u64], from: u64, len: u64, at: u64, out: &mut [u64])
    requires { Apart 0 len runs.now × InView from len kept.now × Room at (run_lengths runs.now) out.old }
    ensures { out.new ≡ laid at (recover (in_runs len runs.now) (view from len kept.now)) out.old }
{
    let mut rank: u64 = 0;
    for &[first, past] in runs.as_chunks::<2>().0 {
        let first = first as u64;
        let past = past as u64;
        let held = past - first;
        copy_rows(kept, from, Row(first), held, at, Rank(rank), out);
        rank += held;
    }
}

// Zeros for the ranks of a gap, and ones for those of the run behind it, from a rank on. The rank after them.
fn lay_ranks(unset: u64, set: u64, at: u64, rank: Rank, out: &mut [u64]) -> Rank
    requires { Room at (rank.0 + unset + set) out.old }
    ensures { (result.0 ≡ rank.0 + unset + set)
        × (out.new ≡ laid (at + rank.0) (replicate unset false ++ replicate set true) out.old) }
{
    let first = rank.0 + unset;
    let past = first + set;
    lay_run(rank.0, first, past, at, out);
    Rank(past)
}

// Zeros for n ranks from a rank on.
fn clear_ranks(n: u64, at: u64, rank: Rank, out: &mut [u64])
    requires { Room (at + rank.0) n out.old }
    ensures { out.new ≡ laid (at + rank.0) (replicate n false) out.old }
{
    clear(out, at + rank.0, n);
}

// The second mask in runs, all of them in self, which has any form and so many set rows: what self has between two runs is cleared, and each run is
// filled. A run lies in self, so that it has as many ranks as rows.
pub fn recover_runs(
    s: Form,
    total: u64,
    swords: &[u64],
    srows: &[u32],
    runs: &[u32],
    at: u64,
    out: &mut [u64],
)
    requires { Accepted (lent s swords.now srows.now) × (total ≡ count_of (lent s swords.now srows.now)) × Apart 0 (length_of s) runs.now
        × (count (outside (rows_of (lent s swords.now srows.now)) (in_runs (length_of s) runs.now)) ≡ 0) × Room at (count_of (lent s swords.now srows.now)) out.old }
    ensures { out.new ≡ laid at (recover (rows_of (lent s swords.now srows.now)) (in_runs (length_of s) runs.now)) out.old }
{
    let mut row = Row(0);
    let mut rank = Rank(0);
    let mut own: usize = 0;
    for &[first, past] in runs.as_chunks::<2>().0 {
        let first = first as u64;
        let past = past as u64;
        let gap = first - row.0;
        let held = past - first;
        let skipped = skip_rows(s, swords, srows, own, row, gap);
        rank = lay_ranks(skipped.set, held, at, rank, out);
        own = skip_set(s, skipped.next, held);
        row = Row(past);
    }
    let left = total - rank.0;
    clear_ranks(left, at, rank, out);
}

// Runs of ranks under runs of self. Under a run of self lie as many ranks as it has rows: a window over the rank mask, of whose runs that part is
// marked which lies in it, from the run's first row on. Both are walked once, from the first run to the last.
ghost use Rattle.std.specs.Prelude.{◌≡◌, true, ◌+◌, ◌-◌, ◌≤◌, replicate};
ghost use Rattle.rows.specs.Rows.{count, compose};
ghost use Rattle.rows.specs.Lists.{set_rows};
ghost use Rattle.rows.specs.Runs.{in_runs, run_lengths, Apart};
ghost use Rattle.rows.specs.Laid.{marked};
ghost use Rattle.rows.specs.Asks.{Room};
ghost use Rattle.books.specs.Windows.{window, into, Reached};

use books::inner::into_window;
use fills::inner::lay::set_run;
use rows::{Rank, Row};

// What a run of ranks has in the window, marked; the window's first rank is under a row. How many they are.
fn mark_part(first: Rank, past: Rank, from: Rank, n: u64, at: u64, row: Row, out: &mut [u64]) -> u64
    requires { (first.0 ≤ past.0) × Room (at + row.0) n out.old }
    ensures { (result ≡ into from.0 n past.0 - into from.0 n first.0)
        × (out.new ≡ marked at (set_rows (row.0 + into from.0 n first.0)
        (replicate (into from.0 n past.0 - into from.0 n first.0) true)) out.old) }
{
    let begin = into_window(from.0, n, first.0);
    let end = into_window(from.0, n, past.0);
    if begin == end {
        return 0;
    }
    let top = row.0 + begin;
    let below = row.0 + end;
    set_run(out, at, top, below);
    end - begin
}

// Which run of ranks the walk has come to, and how many rows were marked.
#[derive(Clone, Copy)]
pub struct Marked {
    pub next: usize,
    pub set: u64,
}

// The window's ranks, marked, from the run of ranks on that the walk has come to.
fn mark_window(
    ranks: &[u32],
    next: usize,
    from: Rank,
    n: u64,
    at: u64,
    row: Row,
    out: &mut [u64],
) -> Marked
    requires { Reached ranks.now next from.0 × (from.0 + n ≤ 1048576) × Room (at + row.0) n out.old }
    ensures { Reached ranks.now result.next (from.0 + n) × (result.set ≡ count (window from.0 n ranks.now))
        × (out.new ≡ marked at (set_rows row.0 (window from.0 n ranks.now)) out.old) }
{
    let end = from.0 + n;
    let mut set: u64 = 0;
    // As a `for` over `(next..ranks.len()).step_by(2)` the composition of runs under runs took a tenth longer.
    let mut i = next;
    while i < ranks.len() {
        let first = ranks[i] as u64;
        let past = ranks[i + 1] as u64;
        let some = mark_part(Rank(first), Rank(past), from, n, at, row, out);
        set += some;
        if end <= past {
            return Marked { next: i, set };
        }
        i += 2;
    }
    Marked { next: i, set }
}

// Self's rows whose ranks the rank mask has, marked: row 0 of self at bit at. How many they are.
pub fn mark_runs(runs: &[u32], ranks: &[u32], len: u64, at: u64, out: &mut [u64]) -> u64
    requires { Apart 0 len runs.now × Apart 0 (run_lengths runs.now) ranks.now × (len ≤ 1048576) × Room at len out.old }
    ensures { (result ≡ count (compose (in_runs len runs.now) (in_runs (run_lengths runs.now) ranks.now)))
        × (out.new ≡ marked at (set_rows 0 (compose (in_runs len runs.now)
        (in_runs (run_lengths runs.now) ranks.now))) out.old) }
{
    let mut sum: u64 = 0;
    let mut rank: u64 = 0;
    let mut next: usize = 0;
    for &[first, past] in runs.as_chunks::<2>().0 {
        let first = first as u64;
        let past = past as u64;
        let held = past - first;
        let marked = mark_window(ranks, next, Rank(rank), held, at, Row(first), out);
        next = marked.next;
        sum += marked.set;
        rank += held;
    }
    sum
}

// A rank list on self in runs: each run of self takes the ranks that it has, one after the other.
ghost use Rattle.std.specs.Prelude.{◌≡◌, ◌+◌, ◌-◌, ◌^◌, ◌≤◌, length, drop};
ghost use Rattle.rows.specs.Rows.{compose};
ghost use Rattle.rows.specs.Lists.{listed, Ascending, set_rows};
ghost use Rattle.rows.specs.Runs.{in_runs, run_lengths, Apart};
ghost use Rattle.rows.specs.Laid.{marked};
ghost use Rattle.rows.specs.Asks.{Room};
ghost use Rattle.under.specs.Taken.{Taken};

use books::inner::mark_row;
use rows::{Rank, Row};

// The listed ranks from number next on that a run has, marked: its first row has rank passed, and the rank behind its last is end. Which is the
// first that it has not.
fn mark_in_run(
    ranks: &[u32],
    next: usize,
    first: Row,
    passed: Rank,
    end: Rank,
    at: u64,
    out: &mut [u64],
) -> usize
    requires { (next ≤ length ranks.now) × Ascending passed.0 (2 ^ 32) (drop next ranks.now) × Room at (first.0 + (end.0 - passed.0)) out.old }
    ensures { Taken ranks.now (λ k. first.0 + (k - passed.0)) at next result end.0 end.0 out.old out.new }
{
    for i in next..ranks.len() {
        let entry = ranks[i] as u64;
        if entry >= end.0 {
            return i;
        }
        let row = first.0 + (entry - passed.0);
        mark_row(out, at, Row(row));
    }
    ranks.len()
}

// Self's rows at the listed ranks, marked, run by run: row 0 of self at bit at. While a rank is left, so is a run that has it.
pub fn mark_entries(runs: &[u32], ranks: &[u32], len: u64, at: u64, out: &mut [u64])
    requires { Apart 0 len runs.now × Ascending 0 (run_lengths runs.now) ranks.now × (len ≤ 1048576) × Room at len out.old }
    ensures { out.new ≡ marked at (set_rows 0 (compose (in_runs len runs.now)
        (listed (run_lengths runs.now) ranks.now))) out.old }
{
    let mut passed: u64 = 0;
    let mut next: usize = 0;
    for &[first, past] in runs.as_chunks::<2>().0 {
        if next == ranks.len() {
            return;
        }
        let first = first as u64;
        let past = past as u64;
        let end = passed + (past - first);
        next = mark_in_run(ranks, next, Row(first), Rank(passed), Rank(end), at, out);
        passed = end;
    }
}

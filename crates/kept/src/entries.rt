// A list as self, or runs of one row each, and the rank mask in runs: each run of ranks is a part, from the entry of its first rank to that of its
// last.
ghost use Rattle.std.specs.Prelude.{◌≡◌, ◌-◌, ◌≤◌, length, take, drop};
ghost use Rattle.rows.specs.Rows.{count, compose};
ghost use Rattle.rows.specs.Words.{Below};
ghost use Rattle.rows.specs.Lists.{listed, Ascending, set_rows};
ghost use Rattle.rows.specs.Runs.{in_runs, Apart};
ghost use Rattle.rows.specs.Laid.{marked};
ghost use Rattle.rows.specs.Asks.{Room};
ghost use Rattle.marks.specs.Entries.{entries};

use books::inner::mark_row;
use marks::inner::{Numbers, entry_at};
use rows::Rank;

// The entries from one rank on, and before another, marked: row 0 of self at bit at.
fn mark_span(
    rows: &[u32],
    numbers: Numbers,
    first: Rank,
    past: Rank,
    len: u64,
    at: u64,
    out: &mut [u64],
)
    requires { Below len (entries numbers rows.now) × (first.0 ≤ past.0) × (past.0 ≤ length (entries numbers rows.now)) × Room at len out.old }
    ensures { out.new ≡ marked at (take (past.0 - first.0) (drop first.0 (entries numbers rows.now))) out.old }
{
    for i in first.0..past.0 {
        let row = entry_at(rows, numbers, Rank(i));
        mark_row(out, at, row);
    }
}

// The entries of each run of ranks, marked; and how many they are.
pub fn mark_spans(
    rows: &[u32],
    numbers: Numbers,
    ranks: &[u32],
    len: u64,
    at: u64,
    out: &mut [u64],
) -> u64
    requires { Ascending 0 len (entries numbers rows.now) × Apart 0 (length (entries numbers rows.now)) ranks.now × Room at len out.old }
    ensures { (result ≡ count (compose (listed len (entries numbers rows.now)) (in_runs (length (entries numbers rows.now)) ranks.now)))
        × (out.new ≡ marked at (set_rows 0 (compose (listed len (entries numbers rows.now))
        (in_runs (length (entries numbers rows.now)) ranks.now))) out.old) }
{
    let mut sum: u64 = 0;
    for &[first, past] in ranks.as_chunks::<2>().0 {
        let first = first as u64;
        let past = past as u64;
        mark_span(rows, numbers, Rank(first), Rank(past), len, at, out);
        sum += past - first;
    }
    sum
}

// The rows before the next run, passed over: how many of them self has set, whatever its form is. A walk over its numbers goes on from run to run, so
// that each is looked at once, or once more where the rows end in a run of self.
ghost use Rattle.std.specs.Prelude.{◌≡◌, true, ◌+◌, ◌^◌, ◌≤◌, ◌<◌, length, take, drop};
ghost use Rattle.rows.specs.Rows.{count};
ghost use Rattle.rows.specs.Words.{Below};
ghost use Rattle.rules.specs.Operand.{lent, rows_of, length_of, Accepted};
ghost use Rattle.operand.specs.Flat.{has_row_numbers};
ghost use Rattle.books.specs.Gathers.{Climbs, Parted};
ghost use Rattle.books.specs.Windows.{window, into, Reached};
ghost use Rattle.extracts.specs.Walk.{Came};
ghost use Rattle.in_runs.specs.Behind.{behind};

use super::counts::count_rows;
use books::inner::into_window;
use operand::inner::forms::{has_row_numbers, has_runs};
use rows::Row;
use rules::Form;

// How many set rows were passed over, and the number that the walk has come to.
#[derive(Clone, Copy)]
pub struct Skipped {
    pub set: u64,
    pub next: usize,
}

// The first entry from number next on that is not below a row. Those before next are.
fn skip_entries(entries: &[u32], next: usize, end: Row) -> usize
    requires { (next ≤ length entries.now) × Below end.0 (take next entries.now) × Climbs 0 (drop next entries.now) }
    ensures { (next ≤ result) × Parted end.0 result entries.now }
{
    match entries[next..]
        .iter()
        .position(|entry| *entry as u64 >= end.0)
    {
        Some(passed) => next + passed,
        None => entries.len(),
    }
}

// The rows of runs among n from a row on, counted from the run on that the walk has come to.
fn skip_runs(runs: &[u32], next: usize, row: Row, n: u64) -> Skipped
    requires { Reached runs.now next row.0 × (row.0 + n ≤ 1048576) }
    ensures { (result.set ≡ count (window row.0 n runs.now)) × Reached runs.now result.next (row.0 + n) }
{
    let end = row.0 + n;
    let mut set: u64 = 0;
    for i in (next..runs.len()).step_by(2) {
        let first = runs[i] as u64;
        let past = runs[i + 1] as u64;
        let begin = into_window(row.0, n, first);
        let stop = into_window(row.0, n, past);
        set += stop - begin;
        if end <= past {
            return Skipped { set, next: i };
        }
    }
    Skipped {
        set,
        next: runs.len(),
    }
}

// The set rows among n from a row on, and where the walk has come to behind them.
pub fn skip_rows(
    form: Form,
    words: &[u64],
    numbers: &[u32],
    next: usize,
    row: Row,
    n: u64,
) -> Skipped
    requires { Accepted (lent form words.now numbers.now) × (row.0 + n ≤ length_of form) × Came (lent form words.now numbers.now) next row.0 }
    ensures { (result.set ≡ count (take n (drop row.0 (rows_of (lent form words.now numbers.now)))))
        × Came (lent form words.now numbers.now) result.next (row.0 + n) }
{
    if has_row_numbers(form) {
        let end = row.0 + n;
        let past = skip_entries(numbers, next, Row(end));
        let set = (past - next) as u64;
        return Skipped { set, next: past };
    }
    if has_runs(form) {
        return skip_runs(numbers, next, row, n);
    }
    let set = count_rows(form, words, row, n);
    Skipped { set, next }
}

// Where the walk has come to behind n rows more that are all set. A list has an entry for each; of runs the one that it is at has them, and it stays.
pub fn skip_set(form: Form, next: usize, n: u64) -> usize
    requires { has_row_numbers form ≡ true → next + n < 2 ^ 64 }
    ensures { result ≡ behind (has_row_numbers form) next n }
{
    if has_row_numbers(form) {
        return next + n as usize;
    }
    next
}

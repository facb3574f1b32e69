// An operand's runs, found one after the other: in words the next row that is set and the next that is not, in a list the entries that follow
// each other, in runs the next pair. Each search goes on where the last one ended, so that all of them pass the operand once.
ghost use Rattle.std.specs.Prelude.{◌≡◌, ◌+◌, ◌*◌, ◌≤◌, ◌<◌, length};
ghost use Rattle.rows.specs.Runs.{runs_of};
ghost use Rattle.rows.specs.Words.{view, Below};
ghost use Rattle.rows.specs.Asks.{InView};
ghost use Rattle.rules.specs.Operand.{lent, rows_of, Accepted};
ghost use Rattle.rules.specs.Records.{records_of};
ghost use Rattle.runs.specs.Searched.{found_words, found_list, found_runs, found_by, left_by};

use outside::inner::{Sought, seek};
use rules::{Form, Run};

// A run that was found, and where to go on: a row of words, an entry of a list, a number of runs.
#[derive(Clone, Copy)]
pub struct Found {
    pub run: Run,
    pub at: u64,
}

fn find_in_words(words: &[u64], start: u64, len: u64, at: u64) -> Found
    requires { InView start len words.now × (at ≤ len) }
    ensures { result ≡ found_words at (view start len words.now) }
{
    let first = seek(words, start, len, at, Sought::Set);
    let past = seek(words, start, len, first, Sought::Unset);
    Found {
        run: Run {
            first: first as u32,
            past: past as u32,
        },
        at: past,
    }
}

// Entries are passed as long as each is one above the last.
fn find_in_list(rows: &[u32], at: usize) -> Found
    requires { (at < length rows.now) × Below 1048576 rows.now }
    ensures { result ≡ found_list at rows.now }
{
    let first = rows[at];
    let mut past = first + 1;
    for i in at + 1..rows.len() {
        if rows[i] != past {
            return Found {
                run: Run { first, past },
                at: i as u64,
            };
        }
        past += 1;
    }
    Found {
        run: Run { first, past },
        at: rows.len() as u64,
    }
}

fn find_in_runs(runs: &[u32], at: usize) -> Found
    requires { at + 1 < length runs.now }
    ensures { result ≡ found_runs at runs.now }
{
    let next = at + 2;
    Found {
        run: Run {
            first: runs[at],
            past: runs[at + 1],
        },
        at: next as u64,
    }
}

// The next run of an operand that has one left.
fn find(form: Form, words: &[u64], rows: &[u32], at: u64) -> Found
    requires { Accepted (lent form words.now rows.now) × (2 ≤ length (left_by form (lent form words.now rows.now) at)) }
    ensures { result ≡ found_by form (lent form words.now rows.now) at }
{
    match form {
        Form::All { length } => Found {
            run: Run {
                first: 0,
                past: length as u32,
            },
            at: at + 1,
        },
        Form::None { length: _ } => Found {
            run: Run { first: 0, past: 0 },
            at,
        },
        Form::Words {
            start,
            length,
            claimed: _,
        } => find_in_words(words, start, length, at),
        Form::List { length: _ } => find_in_list(rows, at as usize),
        Form::Runs { length: _ } => find_in_runs(rows, at as usize),
    }
}

// An operand's runs as records: out has one for each.
pub fn write_found(form: Form, words: &[u64], rows: &[u32], out: &mut [Run])
    requires { Accepted (lent form words.now rows.now) × (length (runs_of (rows_of (lent form words.now rows.now))) ≡ length out.old * 2) }
    ensures { out.new ≡ records_of (runs_of (rows_of (lent form words.now rows.now))) }
{
    let mut at: u64 = 0;
    for record in out.iter_mut() {
        let found = find(form, words, rows, at);
        *record = found.run;
        at = found.at;
    }
}

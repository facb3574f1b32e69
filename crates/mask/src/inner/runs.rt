// An operand's runs: how many numbers they are, and the numbers.
ghost use Rattle.std.specs.Prelude.{◌≡◌, true, ◌≤◌, length, replicate};
ghost use Rattle.rows.specs.Rows.{splice};
ghost use Rattle.rows.specs.Runs.{runs_of};
ghost use Rattle.rules.specs.Operand.{lent, rows_of, Accepted};

use super::super::list::copy_list;
use rules::Form;
use turns::inner::{count_list_turns, count_turns, write_list_turns, write_turns};

// Of n rows that are all set: one run, and none where there are no rows.
fn count_whole(n: u64) -> u64
    ensures { result ≡ length (runs_of (replicate n true)) }
{
    if n == 0 {
        return 0;
    }
    2
}

// How many numbers an operand's runs are. A lent run list is the only one that its rows have: its own length is told.
pub fn count_runs(form: Form, words: &[u64], rows: &[u32]) -> u64
    requires { Accepted (lent form words.now rows.now) }
    ensures { result ≡ length (runs_of (rows_of (lent form words.now rows.now))) }
{
    match form {
        Form::All { length } => count_whole(length),
        Form::None { length: _ } => 0,
        Form::Words {
            start,
            length,
            claimed: _,
        } => count_turns(words, start, length),
        Form::List { length } => count_list_turns(rows, length),
        Form::Runs { length: _ } => rows.len() as u64,
    }
}

// Of n rows that are all set.
fn write_whole(n: u64, out: &mut [u32])
    requires { (n ≤ 1048576) × (length (runs_of (replicate n true)) ≤ length out.old) }
    ensures { out.new ≡ splice 0 out.old (runs_of (replicate n true)) }
{
    if n == 0 {
        return;
    }
    out[0] = 0;
    out[1] = n as u32;
}

// The runs, over the front of out; later numbers stay. A lent run list is copied.
pub fn write_runs(form: Form, words: &[u64], rows: &[u32], out: &mut [u32])
    requires { Accepted (lent form words.now rows.now) × (length (runs_of (rows_of (lent form words.now rows.now))) ≤ length out.old) }
    ensures { out.new ≡ splice 0 out.old (runs_of (rows_of (lent form words.now rows.now))) }
{
    match form {
        Form::All { length } => write_whole(length, out),
        Form::None { length: _ } => {}
        Form::Words {
            start,
            length,
            claimed: _,
        } => write_turns(words, start, length, out),
        Form::List { length } => write_list_turns(rows, length, out),
        Form::Runs { length: _ } => copy_list(rows, out),
    }
}

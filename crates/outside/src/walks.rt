// A walk over the rows of two masks of any forms, each from row to row that matters. What is passed is never read again.
ghost use Rattle.std.specs.Prelude.{◌≡◌, ◌<◌, ◌≤◌};
ghost use Rattle.rows.specs.Rows.{outside};
ghost use Rattle.rules.specs.Operand.{lent, rows_of, length_of};
ghost use Rattle.outside.specs.First.{has, First, Reach};
ghost use Rattle.outside.specs.Walks.{Walks};

use super::inner::{Sought, seek};
use super::spans::{Numbers, Walk};
use operand::inner::forms::length_of;
use rules::Form;

// The next row from row on that a mask has.
fn next_set(form: Form, words: &[u64], rows: &[u32], next: usize, row: u64) -> Walk
    requires { Walks form words.now rows.now next row × (row ≤ length_of form) }
    ensures { Walks form words.now rows.now result.next result.row
        × First (has (rows_of (lent form words.now rows.now))) row (length_of form) result.row }
{
    match form {
        Form::All { length: _ } => Walk { next, row },
        Form::None { length } => Walk { next, row: length },
        Form::Words {
            start,
            length,
            claimed: _,
        } => Walk {
            next,
            row: seek(words, start, length, row, Sought::Set),
        },
        Form::List { length } => Numbers::List(rows).next_held(length, next, row),
        Form::Runs { length } => Numbers::Runs(rows).next_held(length, next, row),
    }
}

// A row before which a mask has all rows from row on, and row itself only where the mask has it not.
fn reach(form: Form, words: &[u64], rows: &[u32], next: usize, row: u64) -> Walk
    requires { Walks form words.now rows.now next row × (row < length_of form) }
    ensures { Walks form words.now rows.now result.next result.row
        × Reach (has (rows_of (lent form words.now rows.now))) row (length_of form) result.row }
{
    match form {
        Form::All { length } => Walk { next, row: length },
        Form::None { length: _ } => Walk { next, row },
        Form::Words {
            start,
            length,
            claimed: _,
        } => Walk {
            next,
            row: seek(words, start, length, row, Sought::Unset),
        },
        Form::List { length } => Numbers::List(rows).held_to(length, next, row),
        Form::Runs { length } => Numbers::Runs(rows).held_to(length, next, row),
    }
}

// The first row of the second mask that self has not. From a row of the second mask the walk leaps to where self's rows end.
pub fn leap(s: Form, swords: &[u64], srows: &[u32], k: Form, kwords: &[u64], krows: &[u32]) -> u64
    requires { Walks s swords.now srows.now 0 0 × Walks k kwords.now krows.now 0 0 × (length_of k ≡ length_of s) }
    ensures { First (has (outside (rows_of (lent s swords.now srows.now))
        (rows_of (lent k kwords.now krows.now)))) 0 (length_of k) result }
{
    let len = length_of(k);
    let mut snext: usize = 0;
    let mut knext: usize = 0;
    let mut row: u64 = 0;
    // A turn goes on to the row that it found: no range has these steps.
    while row < len {
        let set = next_set(k, kwords, krows, knext, row);
        let here = set.row;
        if here == len {
            return len;
        }
        let full = reach(s, swords, srows, snext, here);
        let there = full.row;
        if there == here {
            return here;
        }
        snext = full.next;
        knext = set.next;
        row = there;
    }
    len
}

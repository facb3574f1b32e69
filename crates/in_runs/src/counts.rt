// How many of the rows between two runs self has set, where it lends no numbers: counted in the words that they lie in, and in no other.
ghost use Rattle.std.specs.Prelude.{◌≡◌, [], ◌+◌, ◌*◌, ◌≤◌, length, take, drop};
ghost use Rattle.rows.specs.Rows.{count};
ghost use Rattle.rows.specs.Words.{view};
ghost use Rattle.rules.specs.Operand.{lent, rows_of, length_of};
ghost use Rattle.operand.specs.Flat.{Flat};

use lent::inner::count_view;
use rows::Row;
use rules::Form;

// The set bits among n from a bit on. The view begins with the word that has the first of them, so that no word before it is read.
fn count_from(words: &[u64], bit: u64, n: u64) -> u64
    requires { (n ≤ 1048576) × (bit + n ≤ length words.now * 64) }
    ensures { result ≡ count (view bit n words.now) }
{
    let i = (bit / 64) as usize;
    let start = bit % 64;
    count_view(&words[i..], start, n)
}

// The set rows among n from a row on, of an operand that is no list and no runs.
pub fn count_rows(form: Form, words: &[u64], row: Row, n: u64) -> u64
    requires { Flat (lent form words.now []) × (row.0 + n ≤ length_of form) }
    ensures { result ≡ count (take n (drop row.0 (rows_of (lent form words.now [])))) }
{
    match form {
        Form::All { length: _ } => n,
        Form::None { length: _ } => 0,
        Form::Words {
            start,
            length: _,
            claimed: _,
        } => count_from(words, start + row.0, n),
        Form::List { length: _ } => 0,
        Form::Runs { length: _ } => 0,
    }
}

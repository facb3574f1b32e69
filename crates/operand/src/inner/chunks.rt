// An operand's rows a chunk at a time.
ghost use Rattle.std.specs.Prelude.{◌≡◌, [], ◌+◌, ◌≤◌, take, drop};
ghost use Rattle.rows.specs.Word.{word_of};
ghost use Rattle.rows.specs.Asks.{Chunk};
ghost use Rattle.rules.specs.Operand.{lent, rows_of, length_of};
ghost use Rattle.operand.specs.Flat.{Flat};

use rules::Form;

// n rows from row on of an operand that is no list and no runs.
pub fn chunk_of(form: Form, words: &[u64], row: u64, n: u64) -> u64
    requires { Flat (lent form words.now []) × Chunk n × (row + n ≤ length_of form) }
    ensures { result ≡ word_of (take n (drop row (rows_of (lent form words.now [])))) }
{
    match form {
        Form::All { length: _ } => lent::inner::ones(n),
        Form::None { length: _ } => 0,
        Form::Words {
            start,
            length: _,
            claimed: _,
        } => lent::inner::chunk(words, start, row, n),
        Form::List { length: _ } => 0,
        Form::Runs { length: _ } => 0,
    }
}

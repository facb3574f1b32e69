// The four operations, on words and on a chunk of two operands.
ghost use Rattle.std.specs.Prelude.{◌≡◌, [], ◌+◌, ◌≤◌, Bool, take, drop};
ghost use Rattle.rows.specs.Word.{bits_of, word_of, both};
ghost use Rattle.rows.specs.Asks.{Chunk};
ghost use Rattle.rules.specs.declared.Operation.TheVariants.{And, Or, AndNot, Not};
ghost use Rattle.rules.specs.Operand.{lent, length_of};
ghost use Rattle.rules.specs.SetOps.{combination, row_of};
ghost use Rattle.operand.specs.Flat.{Abreast};

use lent::inner::ones;
use operand::inner::chunks::chunk_of;
use rules::Form;

// An operation on the rows of two operands, and how it is done on words, 64 rows at once.
pub trait RowOperation {
    ghost on_rows: { Bool → Bool → Bool };

    fn on_words(x: u64, y: u64) -> u64
        ensures { result ≡ word_of (both on_rows (bits_of 64 x) (bits_of 64 y)) };
}

pub struct And;

pub struct Or;

pub struct AndNot;

// Of the first operand; the second is any of its length.
pub struct Not;

impl RowOperation for And {
    ghost on_rows = { row_of And };

    fn on_words(x: u64, y: u64) -> u64 {
        x & y
    }
}

impl RowOperation for Or {
    ghost on_rows = { row_of Or };

    fn on_words(x: u64, y: u64) -> u64 {
        x | y
    }
}

impl RowOperation for AndNot {
    ghost on_rows = { row_of AndNot };

    fn on_words(x: u64, y: u64) -> u64 {
        x & !y
    }
}

impl RowOperation for Not {
    ghost on_rows = { row_of Not };

    fn on_words(x: u64, _y: u64) -> u64 {
        !x
    }
}

// n rows of the result from row on: what not sets past them is cut off.
pub fn chunk<O: RowOperation>(
    a: Form,
    awords: &[u64],
    b: Form,
    bwords: &[u64],
    row: u64,
    n: u64,
) -> u64
    requires { Abreast (lent a awords.now []) (lent b bwords.now []) × Chunk n × (row + n ≤ length_of a) }
    ensures { result ≡ word_of (take n (drop row (combination O.on_rows (lent a awords.now []) (lent b bwords.now [])))) }
{
    let x = chunk_of(a, awords, row, n);
    let y = chunk_of(b, bwords, row, n);
    O::on_words(x, y) & ones(n)
}

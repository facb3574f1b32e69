// What our own crates call: the first row outside self, and the next row in words that is set, or is unset.
ghost use Rattle.std.specs.Prelude.{◌≡◌, ◌≤◌};
ghost use Rattle.rows.specs.Rows.{outside};
ghost use Rattle.rows.specs.Lists.{select};
ghost use Rattle.rows.specs.Words.{view};
ghost use Rattle.rows.specs.Asks.{InView};
ghost use Rattle.rules.specs.Operand.{lent, rows_of, length_of, Accepted};
ghost use Rattle.outside.specs.First.{has, sought, flipped, First};

use super::walks::leap;
use super::words::first_in_words;
use lent::inner::{chunk_len, ones, read};
use rows::Row;
use rules::Form;

// The first row of the second mask that self has not, and the length where there is none. s is self and k the second mask, each with what is lent
// beside it.
pub fn first_outside(
    s: Form,
    swords: &[u64],
    srows: &[u32],
    k: Form,
    kwords: &[u64],
    krows: &[u32],
) -> Row
    requires { Accepted (lent s swords.now srows.now) × Accepted (lent k kwords.now krows.now) × (length_of k ≡ length_of s) }
    ensures { result.0 ≡ select (outside (rows_of (lent s swords.now srows.now))
        (rows_of (lent k kwords.now krows.now))) 0 }
{
    let Form::Words {
        start: sstart,
        length: _,
        claimed: _,
    } = s
    else {
        return Row(leap(s, swords, srows, k, kwords, krows));
    };
    let Form::Words {
        start: kstart,
        length,
        claimed: _,
    } = k
    else {
        return Row(leap(s, swords, srows, k, kwords, krows));
    };
    Row(first_in_words(swords, sstart, kwords, kstart, length))
}

// Which rows are sought: those that are set, or those that are not.
#[derive(Clone, Copy)]
pub enum Sought {
    Set,
    Unset,
}

// A word of one bit: what turns the rows sought to 1.
fn flip(which: Sought) -> u64
    ensures { result ≡ flipped which }
{
    match which {
        Sought::Set => 0,
        Sought::Unset => u64::MAX,
    }
}

// The next row from row on that is as sought.
pub fn seek(words: &[u64], start: u64, len: u64, row: u64, which: Sought) -> u64
    requires { InView start len words.now × (row ≤ len) }
    ensures { First (λ i. sought which (has (view start len words.now) i)) row len result }
{
    let turned = flip(which);
    for at in (row..len).step_by(64) {
        let n = chunk_len(len, at);
        let bits = (read(words, start, at) ^ turned) & ones(n);
        if bits != 0 {
            return at + u64::trailing_zeros(bits) as u64;
        }
    }
    len
}

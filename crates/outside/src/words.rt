// Rows in words: the first of a second mask that self has not.
ghost use Rattle.std.specs.Prelude.{◌*◌, ◌≤◌};
ghost use Rattle.rows.specs.Rows.{outside};
ghost use Rattle.rows.specs.Words.{view};
ghost use Rattle.rows.specs.Asks.{InView};
ghost use Rattle.outside.specs.First.{has, First};

use lent::inner::{chunk, whole_word};

// The first row of n whole words that self has not, and the row after them.
fn first_in_whole(
    swords: &[u64],
    sstart: u64,
    kwords: &[u64],
    kstart: u64,
    n: usize,
    len: u64,
) -> u64
    requires { InView sstart len swords.now × InView kstart len kwords.now × (n * 64 ≤ len) }
    ensures { First (has (outside (view sstart len swords.now) (view kstart len kwords.now))) 0 (n * 64) result }
{
    for i in 0..n {
        let bits = whole_word(kwords, kstart, i) & !whole_word(swords, sstart, i);
        if bits != 0 {
            return i as u64 * 64 + u64::trailing_zeros(bits) as u64;
        }
    }
    n as u64 * 64
}

// The first row that self has not, of all. The rows past the last whole word are one chunk.
pub fn first_in_words(swords: &[u64], sstart: u64, kwords: &[u64], kstart: u64, len: u64) -> u64
    requires { InView sstart len swords.now × InView kstart len kwords.now }
    ensures { First (has (outside (view sstart len swords.now) (view kstart len kwords.now))) 0 len result }
{
    let whole = len / 64;
    let row = whole * 64;
    let found = first_in_whole(swords, sstart, kwords, kstart, whole as usize, len);
    if found < row {
        return found;
    }
    if row == len {
        return len;
    }
    let n = len - row;
    let bits = chunk(kwords, kstart, row, n) & !chunk(swords, sstart, row, n);
    if bits == 0 {
        return len;
    }
    row + u64::trailing_zeros(bits) as u64
}

// Routes 7 to 10 where the output begins on a word, as it does in every composition: whole words are stored as they are. Fewer than 64 rows are
// left for the chunk loop.
ghost use Rattle.std.specs.Prelude.{◌≡◌, ◌+◌, ◌*◌, ◌≤◌, length};
ghost use Rattle.rows.specs.Rows.{count, compose};
ghost use Rattle.rows.specs.Words.{view};
ghost use Rattle.rows.specs.Lists.{tab};
ghost use Rattle.rows.specs.Laid.{laid};
ghost use Rattle.rows.specs.Asks.{InView};

use super::deposit::deposit_bits;
use super::ranks::Ranks;
use lent::inner::whole_word;
use rows::{Rank, Way};

// Word by word from rank 0 on. The rank after the last word is told, and the ranks are left as they stand there.
pub fn deposit_words<R: Ranks>(
    way: Way,
    words: &[u64],
    start: u64,
    n: usize,
    ranks: &mut R,
    to: usize,
    out: &mut [u64],
) -> Rank
    requires { InView start (n * 64) words.now × (to + n ≤ length out.old) × R.reaches ranks.old 0 }
    ensures { (result.0 ≡ count (view start (n * 64) words.now)) × R.reaches ranks.new result.0 × (R.has ranks.new ≡ R.has ranks.old)
        × (out.new ≡ laid (to * 64) (compose (view start (n * 64) words.now) (tab 0 (count (view start (n * 64) words.now)) (R.has ranks.old))) out.old) }
{
    let mut rank = Rank(0);
    for i in 0..n {
        let mask = whole_word(words, start, i);
        let set = u64::count_ones(mask);
        let bits = ranks.bits(rank, set as u64);
        out[to + i] = deposit_bits(way, bits, mask, set);
        rank = Rank(rank.0 + set as u64);
    }
    rank
}

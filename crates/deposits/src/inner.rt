// The kernels of routes 7 to 10, with one promise: the composition is laid from bit at on.
ghost use Rattle.std.specs.Prelude.{◌≡◌, ◌≤◌, drop};
ghost use Rattle.rows.specs.Rows.{count, compose};
ghost use Rattle.rows.specs.Words.{bits_of_all, view};
ghost use Rattle.rows.specs.Lists.{tab, listed, Ascending};
ghost use Rattle.rows.specs.Laid.{laid};
ghost use Rattle.rows.specs.Asks.{Room, InView};

use super::deposit::deposit_chunks;
use super::ranks::{InList, InWords, Ranks};
use super::whole::deposit_words;
use rows::{Rank, Way};

// Whole words first where the output begins on one.
fn deposit_rows<R: Ranks>(
    way: Way,
    words: &[u64],
    start: u64,
    len: u64,
    mut ranks: R,
    at: u64,
    out: &mut [u64],
)
    requires { InView start len words.now × Room at len out.old × R.reaches ranks 0 }
    ensures { out.new ≡ laid at (compose (view start len words.now) (tab 0 (count (view start len words.now)) (R.has ranks))) out.old }
{
    if at % 64 != 0 {
        deposit_chunks(way, words, start, len, ranks, Rank(0), at, out);
        return;
    }
    let n = (len / 64) as usize;
    let rank = deposit_words(way, words, start, n, &mut ranks, (at / 64) as usize, out);
    let done = len / 64 * 64;
    deposit_chunks(
        way,
        words,
        start + done,
        len - done,
        ranks,
        rank,
        at + done,
        out,
    );
}

// Routes 7 and 8: rank bits gathered from a list.
// Apart from what calls it (`inline(never)`), so that its loops have the registers to themselves.
#[inline(never)]
pub fn intersect_bit_buffer_by_rank_indices(
    way: Way,
    words: &[u64],
    start: u64,
    len: u64,
    ranks: &[u32],
    at: u64,
    out: &mut [u64],
)
    requires { InView start len words.now × Room at len out.old × Ascending 0 (count (view start len words.now)) ranks.now }
    ensures { out.new ≡ laid at (compose (view start len words.now) (listed (count (view start len words.now)) ranks.now)) out.old }
{
    let listed = InList {
        entries: ranks,
        next: 0,
    };
    deposit_rows(way, words, start, len, listed, at, out);
}

// Routes 9 and 10: rank bits read from words.
// Apart from what calls it (`inline(never)`), so that its loops have the registers to themselves.
#[inline(never)]
pub fn intersect_bit_buffers(
    way: Way,
    words: &[u64],
    start: u64,
    len: u64,
    ranks: &[u64],
    from: u64,
    at: u64,
    out: &mut [u64],
)
    requires { InView start len words.now × (from ≤ 63) × Room at len out.old }
    ensures { out.new ≡ laid at (compose (view start len words.now) (drop from (bits_of_all 64 ranks.now))) out.old }
{
    let read = InWords { words: ranks, from };
    deposit_rows(way, words, start, len, read, at, out);
}

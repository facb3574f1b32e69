// The kernels: each lays the recovery from bit at on, a bit for each of self's set rows.
ghost use Rattle.std.specs.Prelude.{◌≡◌};
ghost use Rattle.rows.specs.Rows.{count, recover};
ghost use Rattle.rows.specs.Words.{view};
ghost use Rattle.rows.specs.Laid.{laid};
ghost use Rattle.rows.specs.Asks.{Room, InView};
ghost use Rattle.rules.specs.Operand.{lent, rows_of, length_of, count_of, Accepted};

use super::chunks::rows_in_chunk;
use super::stores::{extract_bits, store_ranks};
use books::inner::self_bits;
use lent::inner::{chunk_len, whole_word};
use operand::inner::forms::length_of;
use rows::{Rank, Row, Way};
use rules::Form;

// Both masks in words; self has so many rows set.
pub fn recover_words(
    way: Way,
    words: &[u64],
    start: u64,
    len: u64,
    set: u64,
    kept: &[u64],
    from: u64,
    at: u64,
    out: &mut [u64],
)
    requires { InView start len words.now × InView from len kept.now × (set ≡ count (view start len words.now)) × Room at (count (view start len words.now)) out.old }
    ensures { out.new ≡ laid at (recover (view start len words.now) (view from len kept.now)) out.old }
{
    let end = at + set;
    let n = (len / 64) as usize;
    let mut rank = Rank(0);
    for i in 0..n {
        let mask = whole_word(words, start, i);
        let source = whole_word(kept, from, i);
        let count = u64::count_ones(mask);
        let bits = extract_bits(way, source, mask, count);
        rank = store_ranks(bits, count as u64, at, rank, end, out);
    }
    let rest = len % 64;
    if rest == 0 {
        return;
    }
    let below = len - rest;
    let row = Row(below);
    let mask = self_bits(words, start, row, rest);
    let source = self_bits(kept, from, row, rest);
    let count = u64::count_ones(mask);
    let bits = extract_bits(way, source, mask, count);
    store_ranks(bits, count as u64, at, rank, end, out);
}

// Two masks of one length in any forms; self has so many rows set.
pub fn recover_chunks(
    s: Form,
    set: u64,
    swords: &[u64],
    srows: &[u32],
    k: Form,
    kwords: &[u64],
    krows: &[u32],
    at: u64,
    out: &mut [u64],
)
    requires { Accepted (lent s swords.now srows.now) × Accepted (lent k kwords.now krows.now) × (length_of k ≡ length_of s)
        × (set ≡ count_of (lent s swords.now srows.now)) × Room at (count_of (lent s swords.now srows.now)) out.old }
    ensures { out.new ≡ laid at (recover (rows_of (lent s swords.now srows.now)) (rows_of (lent k kwords.now krows.now))) out.old }
{
    let len = length_of(s);
    let end = at + set;
    let mut rank = Rank(0);
    let mut own: usize = 0;
    let mut other: usize = 0;
    for row in (0..len).step_by(64) {
        let n = chunk_len(len, row);
        let mask = rows_in_chunk(s, swords, srows, own, Row(row), n);
        let source = rows_in_chunk(k, kwords, krows, other, Row(row), n);
        let count = u64::count_ones(mask.bits);
        let bits = extract_bits(Way::Network, source.bits, mask.bits, count);
        rank = store_ranks(bits, count as u64, at, rank, end, out);
        own = mask.next;
        other = source.next;
    }
}

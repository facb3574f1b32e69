// The ranks of one chunk stored behind those of the chunks before it. Where two words of the output are all to be written yet, both are stored and
// nothing is asked: how many ranks a chunk has does not tell whether they pass a word, and a wrong guess costs more than a store.
ghost use Rattle.std.specs.Prelude.{◌≡◌, ◌+◌, ◌-◌, ◌*◌, ◌/◌, ◌%◌, ◌^◌, ◌≤◌, ◌<◌, length};
ghost use Rattle.std.specs.Int.Count.{ones};
ghost use Rattle.rows.specs.Word.{bits_of};
ghost use Rattle.rows.specs.Pdep.{pext};
ghost use Rattle.rows.specs.Laid.{laid};
ghost use Rattle.extracts.specs.Stored.{Stored};

use books::inner::put_ranks;
use laid::inner::put;
use rows::{Rank, Way};
use word::inner::{extract_portable, extract_portable_loop};

// A word's bits from bit place on, and zeros behind them to the end of the next word.
fn put_over(out: &mut [u64], place: u64, bits: u64)
    requires { place / 64 + 1 < length out.old }
    ensures { out.new ≡ laid place (bits_of (64 - place % 64 + 64) bits) out.old }
{
    let shift = place % 64;
    put(out, place, 64 - shift, bits);
    let next = (place / 64 + 1) as usize;
    out[next] = (bits >> 1) >> (63 - shift);
}

// Extract by either way.
pub fn extract_bits(way: Way, source: u64, mask: u64, count: u32) -> u64
    requires { count ≡ ones mask }
    ensures { result ≡ pext 64 source mask }
{
    match way {
        Way::Network => extract_portable(source, mask, count),
        Way::Loop => extract_portable_loop(source, mask, count),
    }
}

// The n ranks of one chunk from a rank on, the low bits of a word; before bit end more of it may be written. The rank after them.
pub fn store_ranks(bits: u64, n: u64, at: u64, rank: Rank, end: u64, out: &mut [u64]) -> Rank
    requires { (n ≤ 64) × (at + rank.0 + n ≤ end) × (end ≤ length out.old * 64) × (end < 2 ^ 64) }
    ensures { (result.0 ≡ rank.0 + n) × Stored (at + rank.0) end n bits out.old out.new }
{
    let past = rank.0 + n;
    let place = at + rank.0;
    if place / 64 + 1 < end / 64 {
        put_over(out, place, bits);
        return Rank(past);
    }
    if n == 0 {
        return Rank(past);
    }
    put_ranks(out, at, rank, n, bits);
    Rank(past)
}

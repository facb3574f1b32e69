// Routes 7 to 10: self a chunk of 64 rows at a time, its rank bits deposited. They start at the count of the chunks before it.
ghost use Rattle.std.specs.Prelude.{◌≡◌, ◌+◌, ◌*◌, ◌^◌, ◌≤◌, ◌<◌, length};
ghost use Rattle.std.specs.Int.Count.{ones};
ghost use Rattle.rows.specs.Rows.{count, compose};
ghost use Rattle.rows.specs.Word.{bits_of};
ghost use Rattle.rows.specs.Words.{view};
ghost use Rattle.rows.specs.Lists.{tab};
ghost use Rattle.rows.specs.Pdep.{pdep};
ghost use Rattle.rows.specs.Laid.{laid};
ghost use Rattle.rows.specs.Asks.{Room, Chunk};

use super::ranks::Ranks;
use books::inner::{put_rows, self_bits};
use lent::inner::chunk_len;
use rows::{Rank, Row, Way};
use word::inner::{deposit_portable, deposit_portable_loop};

pub fn deposit_bits(way: Way, source: u64, mask: u64, count: u32) -> u64
    requires { count ≡ ones mask }
    ensures { result ≡ pdep 64 source mask }
{
    match way {
        Way::Network => deposit_portable(source, mask, count),
        Way::Loop => deposit_portable_loop(source, mask, count),
    }
}

// The rows of one chunk whose rank bits are set, laid from the chunk's first row on. The chunk's count comes from the caller, who needs it too.
fn push_result_chunk(
    way: Way,
    mask: u64,
    set: u32,
    n: u64,
    source: u64,
    at: u64,
    row: Row,
    out: &mut [u64],
)
    requires { (set ≡ ones mask) × Chunk n × Room (at + row.0) n out.old }
    ensures { out.new ≡ laid (at + row.0) (bits_of n (pdep 64 source mask)) out.old }
{
    put_rows(out, at, row, n, deposit_bits(way, source, mask, set));
}

// Chunk by chunk from a rank on: self's count before a chunk is its first rank.
pub fn deposit_chunks<R: Ranks>(
    way: Way,
    words: &[u64],
    start: u64,
    len: u64,
    mut ranks: R,
    first: Rank,
    at: u64,
    out: &mut [u64],
)
    requires { (len ≤ 1048576) × (start + len ≤ length words.now * 64) × (first.0 + count (view start len words.now) ≤ 1048576)
        × Room at len out.old × R.reaches ranks first.0 }
    ensures { out.new ≡ laid at (compose (view start len words.now) (tab first.0 (count (view start len words.now)) (R.has ranks))) out.old }
{
    let mut rank = first;
    for done in (0..len).step_by(64) {
        let row = Row(done);
        let n = chunk_len(len, done);
        let mask = self_bits(words, start, row, n);
        let set = u64::count_ones(mask);
        let bits = ranks.bits(rank, set as u64);
        push_result_chunk(way, mask, set, n, bits, at, row, out);
        rank = Rank(rank.0 + set as u64);
    }
}

// Mask-driven, route 6: self is walked by the counts of its chunks to each set rank, and the row is selected in the chunk.
ghost use Rattle.std.specs.Prelude.{◌≡◌, true, [], ◌∷◌, map, ◌+◌, ◌*◌, ◌≤◌, ◌<◌, length};
ghost use Rattle.std.specs.Int.Count.{ones};
ghost use Rattle.rows.specs.Rows.{count, compose};
ghost use Rattle.rows.specs.Word.{bits_of};
ghost use Rattle.rows.specs.Words.{view};
ghost use Rattle.rows.specs.Lists.{listed, Ascending, set_rows, select};
ghost use Rattle.rows.specs.Laid.{laid, marked};
ghost use Rattle.rows.specs.Asks.{Room, InView};
ghost use Rattle.marks.specs.Driven.{Walked, Holds};

use books::inner::{mark_row, rank_chunk, self_chunk};
use rows::{Rank, Row};
use word::inner::select_bit_position;

// A place in the walk over self: the first row not passed, a chunk's first, and its rank, the set rows before it.
#[derive(Clone, Copy)]
pub struct Place {
    pub done: Row,
    pub passed: Rank,
}

// From a place that is not past the rank on, the place whose chunk holds it.
fn seek(words: &[u64], start: u64, len: u64, from: Place, rank: Rank) -> Place
    requires { InView start len words.now × Walked (view start len words.now) from
        × (from.passed.0 ≤ rank.0) × (rank.0 < count (view start len words.now)) }
    ensures { Holds (view start len words.now) result rank }
{
    let mut place = from;
    // Counts no index: the place goes on by chunks and by what they hold, and its caller keeps it.
    loop {
        let count = u64::count_ones(self_chunk(words, start, len, place.done)) as u64;
        if rank.0 < place.passed.0 + count {
            return place;
        }
        place = Place {
            done: Row(place.done.0 + 64),
            passed: Rank(place.passed.0 + count),
        };
    }
}

// Which bit of a chunk has a rank that it holds. Where no row is unset it is the rank itself; the first is reached at once, and the second is the first
// past it. A dense mask and a thin one have mostly these.
fn bit_in(chunk: u64, rank: u32) -> u32
    requires { rank < ones chunk }
    ensures { result ≡ select (bits_of 64 chunk) rank }
{
    if chunk == 0xffff_ffff_ffff_ffffu64 {
        return rank;
    }
    let first = u64::trailing_zeros(chunk);
    if rank == 0 {
        return first;
    }
    if rank == 1 {
        let past = (chunk >> first) >> 1;
        return first + 1 + u64::trailing_zeros(past);
    }
    select_bit_position(chunk, rank)
}

// The row of a rank that the chunk at the place holds.
fn row_in(words: &[u64], start: u64, len: u64, place: Place, rank: Rank) -> Row
    requires { InView start len words.now × Holds (view start len words.now) place rank }
    ensures { result.0 ≡ select (view start len words.now) rank.0 }
{
    let left = (rank.0 - place.passed.0) as u32;
    let bit = bit_in(self_chunk(words, start, len, place.done), left);
    Row(place.done.0 + bit as u64)
}

// The row of one rank marked, and the place where the walk stands then.
fn mark_rank(
    words: &[u64],
    start: u64,
    len: u64,
    from: Place,
    rank: Rank,
    at: u64,
    out: &mut [u64],
) -> Place
    requires { InView start len words.now × Room at len out.old × Walked (view start len words.now) from
        × (from.passed.0 ≤ rank.0) × (rank.0 < count (view start len words.now)) }
    ensures { Walked (view start len words.now) result × (result.passed.0 ≤ rank.0)
        × (out.new ≡ laid (at + select (view start len words.now) rank.0) (true ∷ []) out.old) }
{
    let place = seek(words, start, len, from, rank);
    let row = row_in(words, start, len, place, rank);
    mark_row(out, at, row);
    place
}

// Self's rows at the listed ranks, marked: row 0 of self at bit at.
pub fn intersect_mask_driven_list(
    words: &[u64],
    start: u64,
    len: u64,
    ranks: &[u32],
    at: u64,
    out: &mut [u64],
)
    requires { InView start len words.now × Ascending 0 (count (view start len words.now)) ranks.now × Room at len out.old }
    ensures { out.new ≡ marked at (set_rows 0 (compose (view start len words.now)
        (listed (count (view start len words.now)) ranks.now))) out.old }
{
    let mut place = Place {
        done: Row(0),
        passed: Rank(0),
    };
    for entry in ranks {
        place = mark_rank(words, start, len, place, Rank(*entry as u64), at, out);
    }
}

// The rows of the ranks that one chunk of the rank mask sets, lowest first; rank base is the chunk's first.
fn mark_chunk(
    words: &[u64],
    start: u64,
    len: u64,
    from: Place,
    chunk: u64,
    base: Rank,
    at: u64,
    out: &mut [u64],
) -> Place
    requires { InView start len words.now × Room at len out.old × Walked (view start len words.now) from × (from.passed.0 ≤ base.0)
        × Ascending from.passed.0 (count (view start len words.now)) (set_rows base.0 (bits_of 64 chunk)) }
    ensures { Walked (view start len words.now) result × (result.passed.0 ≤ base.0 + 64)
        × (out.new ≡ marked at (map (select (view start len words.now)) (set_rows base.0 (bits_of 64 chunk))) out.old) }
{
    let mut place = from;
    // A turn clears the lowest set bit: no index is counted.
    let mut rest = chunk;
    while rest != 0 {
        let bit = u64::trailing_zeros(rest) as u64;
        let rank = Rank(base.0 + bit);
        place = mark_rank(words, start, len, place, rank, at, out);
        rest = rest & (rest - 1);
    }
    place
}

// The same at the ranks that a mask in words sets.
pub fn intersect_mask_driven_words(
    words: &[u64],
    start: u64,
    len: u64,
    ranks: &[u64],
    from: u64,
    ranklen: u64,
    at: u64,
    out: &mut [u64],
)
    requires { InView start len words.now × (ranklen ≡ count (view start len words.now))
        × (from ≤ 63) × (from + ranklen ≤ length ranks.now * 64) × Room at len out.old }
    ensures { out.new ≡ marked at (set_rows 0 (compose (view start len words.now)
        (view from ranklen ranks.now))) out.old }
{
    let mut place = Place {
        done: Row(0),
        passed: Rank(0),
    };
    for first in (0..ranklen).step_by(64) {
        let rank = Rank(first);
        let chunk = rank_chunk(ranks, from, ranklen, rank);
        place = mark_chunk(words, start, len, place, chunk, rank, at, out);
    }
}

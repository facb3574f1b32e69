// Where a row or a rank becomes a bit of lent words. The struct in the signature says in which book the number is kept, and nowhere else is one
// added to a start or to the output's first bit.
ghost use Rattle.std.specs.Prelude.{◌≡◌, true, false, ◌&&◌, [], ◌∷◌, ◌+◌, ◌*◌, ◌^◌, ◌≤◌, ◌<◌, leb, ltb, length, drop, replicate};
ghost use Rattle.rows.specs.Word.{bits_of, word_of};
ghost use Rattle.rows.specs.Words.{fit, bits_of_all, view};
ghost use Rattle.rows.specs.Lists.{tab};
ghost use Rattle.rows.specs.Laid.{laid};
ghost use Rattle.rows.specs.Asks.{Room, Chunk};
ghost use Rattle.books.specs.Chunks.{chunk_at};
ghost use Rattle.books.specs.Gathers.{Parted, Gathers};
ghost use Rattle.books.specs.Windows.{window, into, Reached, ended_before};

use laid::inner::{clear, put, set_bit};
use lent::inner::{chunk, chunk_len, ones, read};
use rows::{Rank, Row};

// The chunk from bit i of a view on: a word as it lies where the view and the chunk begin on one, and no row lacks. Bit i is a place in lent
// words, and neither a row nor a rank: the view is self's or the rank mask's.
fn chunk_at(words: &[u64], start: u64, len: u64, i: u64) -> u64
    requires { (start + len ≤ length words.now * 64) × (i < len) }
    ensures { result ≡ word_of (chunk_at (view start len words.now) i) }
{
    let n = chunk_len(len, i);
    if start != 0 {
        return chunk(words, start, i, n);
    }
    if i % 64 + 64 != n {
        return chunk(words, start, i, n);
    }
    words[(i / 64) as usize]
}

// The chunk of a mask of rows from a row on.
pub fn self_chunk(words: &[u64], start: u64, len: u64, row: Row) -> u64
    requires { (start + len ≤ length words.now * 64) × (row.0 < len) }
    ensures { result ≡ word_of (chunk_at (view start len words.now) row.0) }
{
    chunk_at(words, start, len, row.0)
}

// The chunk of a rank mask from a rank on.
pub fn rank_chunk(ranks: &[u64], from: u64, ranklen: u64, rank: Rank) -> u64
    requires { (from + ranklen ≤ length ranks.now * 64) × (rank.0 < ranklen) }
    ensures { result ≡ word_of (chunk_at (view from ranklen ranks.now) rank.0) }
{
    chunk_at(ranks, from, ranklen, rank.0)
}

// Rows of self from a row on, n of them: the caller knows how many its chunk has.
pub fn self_bits(words: &[u64], start: u64, row: Row, n: u64) -> u64
    requires { Chunk n }
    ensures { result ≡ word_of (fit n (drop (start + row.0) (bits_of_all 64 words.now))) }
{
    chunk(words, start, row.0, n)
}

// The rank bits from a rank on. The place is one sum, so that the read has nothing else to add.
pub fn rank_bits(ranks: &[u64], from: u64, rank: Rank) -> u64
    requires { from + rank.0 < 2 ^ 64 }
    ensures { result ≡ word_of (fit 64 (drop (from + rank.0) (bits_of_all 64 ranks.now))) }
{
    let at = from + rank.0;
    read(ranks, at, 0)
}

// The bits of one chunk, gathered, and the number after them, or the one that the walk has come to.
#[derive(Clone, Copy)]
pub struct Gathered {
    pub bits: u64,
    pub next: usize,
}

// The n bits from base on of a list whose entries before next are below base. Base is a row or a rank, as the entries are.
pub fn entry_bits(entries: &[u32], next: usize, base: u64, n: u64) -> Gathered
    requires { (n ≤ 64) × (base + n < 2 ^ 64) × Parted base next entries.now }
    ensures { Gathers base n entries.now result.bits result.next }
{
    let mut bits: u64 = 0;
    for j in next..entries.len() {
        let entry = entries[j] as u64;
        if entry >= base + n {
            return Gathered { bits, next: j };
        }
        bits |= 1u64 << (entry - base);
    }
    Gathered {
        bits,
        next: entries.len(),
    }
}

// The rank bits of a chunk that has so many rows set, from a rank on: gathered from a list of ranks, whose entries before next are of earlier ranks.
pub fn rank_bits_for_chunk(ranks: &[u32], next: usize, rank: Rank, set: u64) -> Gathered
    requires { (set ≤ 64) × (rank.0 + set < 2 ^ 64) × Parted rank.0 next ranks.now }
    ensures { Gathers rank.0 set ranks.now result.bits result.next }
{
    entry_bits(ranks, next, rank.0, set)
}

// ---- of runs: a walk that goes on from chunk to chunk, so that each run is looked at once, or once more where a chunk ends in it

// How far into the n numbers from base on another number lies. Base is a row or a rank, as the number is.
pub fn into_window(base: u64, n: u64, number: u64) -> u64
    ensures { result ≡ into base n number }
{
    number.saturating_sub(base).min(n)
}

// Which of the n numbers from base on are in a run.
fn bits_in_run(first: u64, past: u64, base: u64, n: u64) -> u64
    requires { (n ≤ 64) × (base + n < 2 ^ 64) }
    ensures { result ≡ word_of (tab base n (λ i. leb first i && ltb i past)) }
{
    let begin = into_window(base, n, first);
    let end = into_window(base, n, past);
    if end <= begin {
        return 0;
    }
    ones(end - begin) << begin
}

// The n bits from base on of runs, from the run on that a walk has come to: those before it hold nothing from base on.
pub fn run_bits(runs: &[u32], next: usize, base: u64, n: u64) -> Gathered
    requires { (n ≤ 64) × (base + n < 2 ^ 64) × Reached runs.now next base }
    ensures { (result.bits ≡ word_of (window base n runs.now)) × Reached runs.now result.next (base + n)
        × (result.next ≡ next + ended_before (base + n) (drop next runs.now)) }
{
    let end = base + n;
    let mut bits: u64 = 0;
    for i in (next..runs.len()).step_by(2) {
        let first = runs[i] as u64;
        let past = runs[i + 1] as u64;
        bits |= bits_in_run(first, past, base, n);
        if end <= past {
            return Gathered { bits, next: i };
        }
    }
    // a walk may have come past the runs before
    Gathered {
        bits,
        next: next.max(runs.len()),
    }
}

// The rank bits of a chunk that has so many rows set, from a rank on: those of runs of ranks, from the run on that the walk has come to.
pub fn run_bits_for_chunk(ranks: &[u32], next: usize, rank: Rank, set: u64) -> Gathered
    requires { (set ≤ 64) × (rank.0 + set < 2 ^ 64) × Reached ranks.now next rank.0 }
    ensures { (result.bits ≡ word_of (window rank.0 set ranks.now)) × Reached ranks.now result.next (rank.0 + set)
        × (result.next ≡ next + ended_before (rank.0 + set) (drop next ranks.now)) }
{
    run_bits(ranks, next, rank.0, set)
}

// The low n bits of bits over the output from a row on; row 0 is at bit at.
pub fn put_rows(out: &mut [u64], at: u64, row: Row, n: u64, bits: u64)
    requires { Chunk n × Room (at + row.0) n out.old }
    ensures { out.new ≡ laid (at + row.0) (bits_of n bits) out.old }
{
    put(out, at + row.0, n, bits);
}

// The low n bits of bits over the output from a rank on; rank 0 is at bit at.
pub fn put_ranks(out: &mut [u64], at: u64, rank: Rank, n: u64, bits: u64)
    requires { Chunk n × Room (at + rank.0) n out.old }
    ensures { out.new ≡ laid (at + rank.0) (bits_of n bits) out.old }
{
    put(out, at + rank.0, n, bits);
}

// Zeros over the output from a row on, n of them; row 0 is at bit at.
pub fn clear_rows(out: &mut [u64], at: u64, row: Row, n: u64)
    requires { Room (at + row.0) n out.old }
    ensures { out.new ≡ laid (at + row.0) (replicate n false) out.old }
{
    clear(out, at + row.0, n);
}

// A row marked in the output; row 0 is at bit at.
pub fn mark_row(out: &mut [u64], at: u64, row: Row)
    requires { (at + row.0 < length out.old * 64) × (at + row.0 < 2 ^ 64) }
    ensures { out.new ≡ laid (at + row.0) (true ∷ []) out.old }
{
    set_bit(out, at + row.0);
}

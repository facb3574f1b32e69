// Routes 4 and 5: self is a list, or runs of one row each. Its rows at the listed ranks, or at the ranks that a mask in words sets, are marked one by
// one; the caller has cleared their part.
ghost use Rattle.std.specs.Prelude.{◌≡◌, map, ◌+◌, ◌*◌, ◌≤◌, ◌<◌, length, get_or, drop};
ghost use Rattle.rows.specs.Rows.{compose};
ghost use Rattle.rows.specs.Word.{bits_of};
ghost use Rattle.rows.specs.Words.{Below, bits_of_all};
ghost use Rattle.rows.specs.Lists.{listed, set_rows, Ascending};
ghost use Rattle.rows.specs.Laid.{marked};
ghost use Rattle.rows.specs.Asks.{Room};
ghost use Rattle.marks.specs.Entries.{entries};

use super::inner::{Numbers, entry_at};
use books::inner::{mark_row, rank_chunk};
use rows::{Rank, Row};

// How many entries there are.
fn entry_count(rows: &[u32], numbers: Numbers) -> u64
    ensures { result ≡ length (entries numbers rows.now) }
{
    let lent = rows.len() as u64;
    match numbers {
        Numbers::List => lent,
        Numbers::Runs => lent / 2,
    }
}

// Route 4: the self entry at each listed rank.
pub fn intersect_by_rank_indices(
    rows: &[u32],
    numbers: Numbers,
    ranks: &[u32],
    len: u64,
    at: u64,
    out: &mut [u64],
)
    requires { Ascending 0 len (entries numbers rows.now) × Ascending 0 (length (entries numbers rows.now)) ranks.now × Room at len out.old }
    ensures { out.new ≡ marked at (set_rows 0 (compose (listed len (entries numbers rows.now))
        (listed (length (entries numbers rows.now)) ranks.now))) out.old }
{
    for entry in ranks {
        let row = entry_at(rows, numbers, Rank(*entry as u64));
        mark_row(out, at, row);
    }
}

// The self entries at the ranks that one chunk of the rank mask sets, lowest first; rank base is the chunk's first.
fn mark_entries(
    rows: &[u32],
    numbers: Numbers,
    len: u64,
    chunk: u64,
    base: Rank,
    at: u64,
    out: &mut [u64],
)
    requires { Below len (entries numbers rows.now) × Room at len out.old
        × Below (length (entries numbers rows.now)) (set_rows base.0 (bits_of 64 chunk)) }
    ensures { out.new ≡ marked at (map (λ k. get_or (entries numbers rows.now) k 0) (set_rows base.0 (bits_of 64 chunk))) out.old }
{
    // A turn clears the lowest set bit: no index is counted.
    let mut rest = chunk;
    while rest != 0 {
        let bit = u64::trailing_zeros(rest) as u64;
        let rank = Rank(base.0 + bit);
        let row = entry_at(rows, numbers, rank);
        mark_row(out, at, row);
        rest = rest & (rest - 1);
    }
}

// Route 5: the j-th self entry kept if rank bit j is set, the rank bits a chunk at a time.
pub fn intersect_indices_by_rank_bits(
    rows: &[u32],
    numbers: Numbers,
    ranks: &[u64],
    from: u64,
    len: u64,
    at: u64,
    out: &mut [u64],
)
    requires { Ascending 0 len (entries numbers rows.now) × (length (entries numbers rows.now) ≤ 1048576)
        × (from + length (entries numbers rows.now) ≤ length ranks.now * 64) × Room at len out.old }
    ensures { out.new ≡ marked at (set_rows 0 (compose (listed len (entries numbers rows.now)) (drop from (bits_of_all 64 ranks.now)))) out.old }
{
    let count = entry_count(rows, numbers);
    for first in (0..count).step_by(64) {
        let rank = Rank(first);
        let chunk = rank_chunk(ranks, from, count, rank);
        mark_entries(rows, numbers, len, chunk, rank, at, out);
    }
}

// The kernels of routes 4, 5 and 6, with one promise: the composition is laid from bit at on. That part of the output is cleared first, and the
// rows are marked in it.
ghost use Rattle.std.specs.Prelude.{◌≡◌, ◌+◌, ◌*◌, ◌≤◌, ◌<◌, length, get_or, drop};
ghost use Rattle.rows.specs.Rows.{count, compose};
ghost use Rattle.rows.specs.Words.{bits_of_all, view};
ghost use Rattle.rows.specs.Lists.{listed, Ascending};
ghost use Rattle.rows.specs.Laid.{laid};
ghost use Rattle.rows.specs.Asks.{Room, InView};
ghost use Rattle.marks.specs.Entries.{entries};

use super::driven::{intersect_mask_driven_list, intersect_mask_driven_words};
use super::lists::{intersect_by_rank_indices, intersect_indices_by_rank_bits};
use laid::inner::clear;
use rows::{Rank, Row};

// What the numbers are that are lent for self: those of a list, or of runs of one row each, of which every other one is what a list would have.
#[derive(Clone, Copy)]
pub enum Numbers {
    List,
    Runs,
}

// The self entry that has a rank.
pub fn entry_at(rows: &[u32], numbers: Numbers, rank: Rank) -> Row
    requires { rank.0 < length (entries numbers rows.now) }
    ensures { result.0 ≡ get_or (entries numbers rows.now) rank.0 0 }
{
    let at = rank.0 as usize;
    match numbers {
        Numbers::List => Row(rows[at] as u64),
        Numbers::Runs => Row(rows[at * 2] as u64),
    }
}

// Route 4.
pub fn lay_entry_at_rank(
    rows: &[u32],
    numbers: Numbers,
    ranks: &[u32],
    len: u64,
    at: u64,
    out: &mut [u64],
)
    requires { Ascending 0 len (entries numbers rows.now) × Ascending 0 (length (entries numbers rows.now)) ranks.now × Room at len out.old }
    ensures { out.new ≡ laid at (compose (listed len (entries numbers rows.now))
        (listed (length (entries numbers rows.now)) ranks.now)) out.old }
{
    clear(out, at, len);
    intersect_by_rank_indices(rows, numbers, ranks, len, at, out);
}

// Route 5.
pub fn lay_entry_if_set(
    rows: &[u32],
    numbers: Numbers,
    ranks: &[u64],
    from: u64,
    len: u64,
    at: u64,
    out: &mut [u64],
)
    requires { Ascending 0 len (entries numbers rows.now) × (length (entries numbers rows.now) ≤ 1048576)
        × (from + length (entries numbers rows.now) ≤ length ranks.now * 64) × Room at len out.old }
    ensures { out.new ≡ laid at (compose (listed len (entries numbers rows.now)) (drop from (bits_of_all 64 ranks.now))) out.old }
{
    clear(out, at, len);
    intersect_indices_by_rank_bits(rows, numbers, ranks, from, len, at, out);
}

// Route 6, a rank list.
pub fn lay_driven_by_list(
    words: &[u64],
    start: u64,
    len: u64,
    ranks: &[u32],
    at: u64,
    out: &mut [u64],
)
    requires { InView start len words.now × Ascending 0 (count (view start len words.now)) ranks.now × Room at len out.old }
    ensures { out.new ≡ laid at (compose (view start len words.now)
        (listed (count (view start len words.now)) ranks.now)) out.old }
{
    clear(out, at, len);
    intersect_mask_driven_list(words, start, len, ranks, at, out);
}

// Route 6, a rank mask in words.
pub fn lay_driven_by_words(
    words: &[u64],
    start: u64,
    len: u64,
    ranks: &[u64],
    from: u64,
    ranklen: u64,
    at: u64,
    out: &mut [u64],
)
    requires { InView start len words.now × (ranklen ≡ count (view start len words.now))
        × (from ≤ 63) × (from + ranklen ≤ length ranks.now * 64) × Room at len out.old }
    ensures { out.new ≡ laid at (compose (view start len words.now) (view from ranklen ranks.now)) out.old }
{
    clear(out, at, len);
    intersect_mask_driven_words(words, start, len, ranks, from, ranklen, at, out);
}

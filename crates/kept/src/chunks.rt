// What runs of ranks keep of self, a chunk of 64 rows at a time: the chunk's ranks are read from the runs, and deposited.
ghost use Rattle.std.specs.Prelude.{◌≡◌, ◌+◌, ◌*◌, ◌≤◌, length, drop};
ghost use Rattle.std.specs.Int.Count.{ones};
ghost use Rattle.rows.specs.Rows.{count, compose};
ghost use Rattle.rows.specs.Word.{word_of};
ghost use Rattle.rows.specs.Words.{view};
ghost use Rattle.rows.specs.Runs.{in_runs};
ghost use Rattle.rows.specs.Pdep.{pdep};
ghost use Rattle.rows.specs.Laid.{laid};
ghost use Rattle.rows.specs.Asks.{Room};
ghost use Rattle.books.specs.Windows.{window, Reached};

use books::inner::{put_rows, run_bits_for_chunk, self_bits};
use lent::inner::chunk_len;
use rows::{Rank, Row};
use word::inner::deposit_portable;

// What is kept of one chunk, how many rows it has set and how many of them are kept, and the run that the walk has come to.
#[derive(Clone, Copy)]
pub struct Kept {
    pub bits: u64,
    pub set: u64,
    pub held: u64,
    pub next: usize,
}

// Where a walk over self and the runs of ranks stands: the next rank, the run, and how many of the ranks before it are kept.
#[derive(Clone, Copy)]
pub struct Walk {
    pub rank: Rank,
    pub next: usize,
    pub held: u64,
}

// What the runs keep of a chunk whose first rank is given.
pub fn keep_bits(mask: u64, ranks: &[u32], next: usize, rank: Rank) -> Kept
    requires { (rank.0 ≤ 2097152) × Reached ranks.now next rank.0 }
    ensures { (result.set ≡ ones mask) × (result.bits ≡ pdep 64 (word_of (window rank.0 (ones mask) ranks.now)) mask)
        × (result.held ≡ count (window rank.0 (ones mask) ranks.now)) × Reached ranks.now result.next (rank.0 + ones mask) }
{
    let count = u64::count_ones(mask);
    let set = count as u64;
    let gathered = run_bits_for_chunk(ranks, next, rank, set);
    let bits = deposit_portable(gathered.bits, mask, count);
    let held = u64::count_ones(gathered.bits) as u64;
    Kept {
        bits,
        set,
        held,
        next: gathered.next,
    }
}

// Chunk by chunk, from where a walk stands. How many ranks are kept, those before it included.
// A loop beside the one of `deposits`: it counts what is kept too, and `keep_whole` needs keep_bits as well, so that sharing that loop would leave two forms here.
pub fn keep_chunks(
    words: &[u64],
    start: u64,
    len: u64,
    ranks: &[u32],
    from: Walk,
    at: u64,
    out: &mut [u64],
) -> u64
    requires { (len ≤ 1048576) × (start + len ≤ length words.now * 64) × Room at len out.old × (from.rank.0 ≤ 1048576)
        × Reached ranks.now from.next from.rank.0 × (from.held ≡ count (in_runs from.rank.0 ranks.now)) }
    ensures { (result ≡ count (in_runs (from.rank.0 + count (view start len words.now)) ranks.now))
        × (out.new ≡ laid at (compose (view start len words.now)
        (drop from.rank.0 (in_runs (from.rank.0 + count (view start len words.now)) ranks.now))) out.old) }
{
    let mut rank = from.rank;
    let mut next = from.next;
    let mut held = from.held;
    for row in (0..len).step_by(64) {
        let n = chunk_len(len, row);
        let mask = self_bits(words, start, Row(row), n);
        let kept = keep_bits(mask, ranks, next, rank);
        put_rows(out, at, Row(row), n, kept.bits);
        next = kept.next;
        held += kept.held;
        let past = rank.0 + kept.set;
        rank = Rank(past);
    }
    held
}

// Where rank bits come from, chunk after chunk: read from words, or gathered from a list.
ghost use Rattle.std.specs.Prelude.{ℕ, Bool, false, ◌≡◌, ◌+◌, ◌≤◌, take, drop, get_or};
ghost use Rattle.rows.specs.Word.{bits_of};
ghost use Rattle.rows.specs.Words.{bits_of_all};
ghost use Rattle.rows.specs.Lists.{tab, member};
ghost use Rattle.books.specs.Gathers.{Parted};

use books::inner::{rank_bits, rank_bits_for_chunk};
use rows::Rank;

// Ranks that are asked for from one on, each chunk's after those of the chunk before it.
pub trait Ranks: Copy {
    // a rank is set
    ghost has: { Self → ℕ → Bool };

    // the ranks from one on may be asked for
    ghost reaches: { Self → ℕ → Type 0 };

    // The rank bits of a chunk that has so many rows set, from a rank on. Bits past those may be any.
    fn bits(&mut self, rank: Rank, set: u64) -> u64
        requires { (rank.0 ≤ 1048576) × (set ≤ 64) × reaches self.old rank.0 }
        ensures { (take set (bits_of 64 result) ≡ tab rank.0 set (has self.old))
            × reaches self.new (rank.0 + set) × (has self.new ≡ has self.old) };
}

// Routes 9 and 10: words, rank 0 at bit from.
#[derive(Clone, Copy)]
pub struct InWords<'a> {
    pub words: &'a [u64],
    pub from: u64,
}

impl Ranks for InWords<'_> {
    ghost has = { λ s rank. get_or (drop s.from (bits_of_all 64 s.words.now)) rank false };

    ghost reaches = { λ s rank. s.from ≤ 63 };

    fn bits(&mut self, rank: Rank, _set: u64) -> u64 {
        rank_bits(self.words, self.from, rank)
    }
}

// Routes 7 and 8: a list, walked; next is the first entry that is not of an earlier rank.
#[derive(Clone, Copy)]
pub struct InList<'a> {
    pub entries: &'a [u32],
    pub next: usize,
}

impl Ranks for InList<'_> {
    ghost has = { λ s rank. member rank s.entries.now };

    ghost reaches = { λ s rank. Parted rank s.next s.entries.now };

    fn bits(&mut self, rank: Rank, set: u64) -> u64 {
        let gathered = rank_bits_for_chunk(self.entries, self.next, rank, set);
        self.next = gathered.next;
        gathered.bits
    }
}

// The same where the output begins on a word, as it does in every composition: whole words are stored as they are. Where the ranks of several words are
// alike nothing is read from the runs: each word is kept or cleared, and counted.
ghost use Rattle.std.specs.Prelude.{◌≡◌, ◌+◌, ◌*◌, ◌≤◌, length, replicate};
ghost use Rattle.rows.specs.Rows.{count, compose};
ghost use Rattle.rows.specs.Words.{view};
ghost use Rattle.rows.specs.Runs.{in_runs};
ghost use Rattle.rows.specs.Laid.{laid};
ghost use Rattle.rows.specs.Asks.{InView};
ghost use Rattle.books.specs.Windows.{Reached};

use super::chunks::{Walk, keep_bits};
use super::stretches::{Stretch, all_or_none, stretch_at};
use lent::inner::whole_word;
use rows::Rank;

// How many words were stored, and how many rows they have set.
#[derive(Clone, Copy)]
pub struct Passed {
    pub words: usize,
    pub set: u64,
}

// The words from the first on, before n, whose ranks are all of one stretch: stored as they are, or 0.
fn store_alike(
    words: &[u64],
    start: u64,
    first: usize,
    n: usize,
    alike: Stretch,
    to: usize,
    out: &mut [u64],
) -> Passed
    requires { InView start (n * 64) words.now × (first ≤ n) × (to + n ≤ length out.old) }
    ensures { (first + result.words ≤ n) × (result.set ≡ count (view (start + first * 64) (result.words * 64) words.now)) × (result.set ≤ alike.most)
        × (out.new ≡ laid ((to + first) * 64) (compose (view (start + first * 64) (result.words * 64) words.now)
        (replicate alike.most alike.set)) out.old) }
{
    let at = to + first;
    // What is left of the stretch is counted down: one subtraction is the test too, where a sum beside `most` took a move more in each turn.
    let mut left = alike.most;
    // Over the words' numbers themselves (`first..n`) it took a twentieth longer.
    for k in 0..n - first {
        let word = whole_word(words, start, first + k);
        let ones = u64::count_ones(word) as u64;
        if ones > left {
            let set = alike.most - left;
            return Passed { words: k, set };
        }
        out[at + k] = all_or_none(word, alike.set);
        left -= ones;
    }
    Passed {
        words: n - first,
        set: alike.most - left,
    }
}

// The first n words: as many as a stretch has, and then one whose ranks may not be alike, until all are stored.
pub fn keep_whole(
    words: &[u64],
    start: u64,
    n: usize,
    ranks: &[u32],
    to: usize,
    out: &mut [u64],
) -> Walk
    requires { InView start (n * 64) words.now × (to + n ≤ length out.old) × Reached ranks.now 0 0 }
    ensures { (result.rank.0 ≡ count (view start (n * 64) words.now)) × Reached ranks.now result.next result.rank.0
        × (result.held ≡ count (in_runs result.rank.0 ranks.now))
        × (out.new ≡ laid (to * 64) (compose (view start (n * 64) words.now)
        (in_runs (count (view start (n * 64) words.now)) ranks.now)) out.old) }
{
    // A turn stores a stretch of words, as many as it finds alike: no range has these steps.
    let mut i: usize = 0;
    let mut rank = Rank(0);
    let mut next: usize = 0;
    let mut held: u64 = 0;
    loop {
        let alike = stretch_at(ranks, next, rank);
        let passed = store_alike(words, start, i, n, alike, to, out);
        held += all_or_none(passed.set, alike.set);
        let here = rank.0 + passed.set;
        let stored = i + passed.words;
        if stored >= n {
            return Walk {
                rank: Rank(here),
                next,
                held,
            };
        }
        let kept = keep_bits(whole_word(words, start, stored), ranks, next, Rank(here));
        let at = to + stored;
        out[at] = kept.bits;
        next = kept.next;
        held += kept.held;
        let past = here + kept.set;
        rank = Rank(past);
        i = stored + 1;
    }
}

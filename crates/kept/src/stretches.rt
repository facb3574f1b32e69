// Ranks that are alike: from where a walk over runs of ranks has come to, up to where the next run begins or the one that it is in ends.
ghost use Rattle.std.specs.Prelude.{◌≡◌, replicate};
ghost use Rattle.books.specs.Windows.{window, Reached};
ghost use Rattle.kept.specs.Alike.{all_or_none};

use rows::Rank;

// So many ranks, and whether all of them are kept or none.
#[derive(Clone, Copy)]
pub struct Stretch {
    pub most: u64,
    pub set: bool,
}

// All of a number, or none of it: a word whose ranks are alike, or how many they are.
pub fn all_or_none(number: u64, set: bool) -> u64
    ensures { result ≡ all_or_none set number }
{
    if set {
        return number;
    }
    0
}

// The ranks from a rank on that are alike. Past the last run they are as many as a mask can have.
pub fn stretch_at(ranks: &[u32], next: usize, rank: Rank) -> Stretch
    requires { Reached ranks.now next rank.0 }
    ensures { window rank.0 result.most ranks.now ≡ replicate result.most result.set }
{
    if next >= ranks.len() {
        return Stretch {
            most: 1048576,
            set: false,
        };
    }
    let first = ranks[next] as u64;
    if rank.0 < first {
        let most = first - rank.0;
        return Stretch { most, set: false };
    }
    let past = ranks[next + 1] as u64;
    if past < rank.0 {
        return Stretch {
            most: 0,
            set: false,
        };
    }
    let most = past - rank.0;
    Stretch { most, set: true }
}

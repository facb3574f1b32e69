// The word layer: word deposit, in the crate's portable forms, and select. The two entry points take any numbers.
#![tactic(auto)]

ghost use Rattle.std.specs.Prelude.{◌≡◌};
ghost use Rattle.rows.specs.WordAnswer.{deposited, selected};

use rows::inner::verdicts::refusal;
use rows::{Reason, Refusal, Way};

mod forms;
pub mod inner;
mod num;

// Bit k of the source at the k-th set bit of the mask. The claimed count must be the mask's: refusal 4.
pub fn deposit(source: u64, mask: u64, claimed: u64) -> Result<u64, Refusal>
    ensures { result ≡ deposited source mask claimed }
{
    inner::deposit_by(Way::Network, source, mask, claimed)
}

// The position of the set bit that has the rank, from 0. The rank must be below the word's set bits: refusal 9.
pub fn select(word: u64, rank: u64) -> Result<u64, Refusal>
    ensures { result ≡ selected word rank }
{
    if rank >= u64::count_ones(word) as u64 {
        return Err(refusal(Reason::NoSuchRank));
    }
    Ok(inner::select_bit_position(word, rank as u32) as u64)
}

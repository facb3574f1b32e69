// The checks of a recovery, part by part as its table has them: the first part that refuses ends them. What they tell is the operands' counts.
ghost use Rattle.std.specs.Prelude.{◌≡◌};
ghost use Rattle.rows.specs.Table.{first};
ghost use Rattle.rules.specs.Operand.{lent, length_of, Accepted};
ghost use Rattle.recover.specs.Judged.{last_checks, matched_of, judged_of};

use lent::inner::words_for;
use operand::inner::checks::check;
use operand::inner::forms::length_of;
use outside::inner::first_outside;
use rows::inner::verdicts::{equal, has_room, refusal};
use rows::{Reason, Refusal, Which};
use rules::Form;

// How many rows self has set, and how many are kept.
#[derive(Clone, Copy)]
pub struct Matched {
    pub set: u64,
    pub kept: u64,
}

// The checks of both operands, self and the second mask, and 7 where their lengths differ.
pub fn judge_masks(
    s: Form,
    swords: &[u64],
    srows: &[u32],
    k: Form,
    kwords: &[u64],
    krows: &[u32],
) -> Result<Matched, Refusal>
    ensures { result ≡ matched_of (lent s swords.now srows.now) (lent k kwords.now krows.now) }
{
    let set = check(Which::First, s, swords, srows)?;
    let kept = check(Which::Second, k, kwords, krows)?;
    equal(length_of(k), length_of(s))?;
    Ok(Matched { set, kept })
}

// 17 where a row of the second mask lies outside self, with the first such row; and 8 where the output has no room for so many bits.
pub fn judge_inside(
    s: Form,
    swords: &[u64],
    srows: &[u32],
    k: Form,
    kwords: &[u64],
    krows: &[u32],
    bits: u64,
    room: u64,
) -> Result<(), Refusal>
    requires { Accepted (lent s swords.now srows.now) × Accepted (lent k kwords.now krows.now) × (length_of k ≡ length_of s) }
    ensures { result ≡ first (last_checks (lent s swords.now srows.now) (lent k kwords.now krows.now) bits room) }
{
    let row = first_outside(s, swords, srows, k, kwords, krows);
    if row.0 != length_of(s) {
        return Err(refusal(Reason::RowOutside(row)));
    }
    has_room(words_for(bits), room)
}

// The operands' checks with 7, and then 17 and 8.
pub fn judge(
    s: Form,
    swords: &[u64],
    srows: &[u32],
    k: Form,
    kwords: &[u64],
    krows: &[u32],
    room: u64,
) -> Result<Matched, Refusal>
    ensures { result ≡ judged_of (lent s swords.now srows.now) (lent k kwords.now krows.now) room }
{
    let matched = judge_masks(s, swords, srows, k, kwords, krows)?;
    judge_inside(s, swords, srows, k, kwords, krows, matched.set, room)?;
    Ok(matched)
}

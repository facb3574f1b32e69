// The checks of a composition, part by part as its table has them: the first part that refuses ends them. What they tell is the operands' counts.
ghost use Rattle.std.specs.Prelude.{◌≡◌};
ghost use Rattle.rules.specs.Operand.{lent};
ghost use Rattle.intersect_by_rank.specs.Judged.{judged_both, judged_all};

use lent::inner::words_for;
use operand::inner::checks::check;
use operand::inner::forms::length_of;
use rows::inner::verdicts::{equal, has_room};
use rows::{Refusal, Which};
use rules::Form;

// The count of self, and that of the rank mask.
#[derive(Clone, Copy)]
pub struct Judged {
    pub rows: u64,
    pub ranks: u64,
}

// The checks of both operands: self is operand 1 and the rank mask operand 2.
pub fn judge_both(
    s: Form,
    swords: &[u64],
    srows: &[u32],
    r: Form,
    rwords: &[u64],
    rrows: &[u32],
) -> Result<Judged, Refusal>
    ensures { result ≡ judged_both (lent s swords.now srows.now) (lent r rwords.now rrows.now) }
{
    let rows = check(Which::First, s, swords, srows)?;
    let ranks = check(Which::Second, r, rwords, rrows)?;
    Ok(Judged { rows, ranks })
}

// The operands' checks, and then what they are to each other and to the output.
pub fn judge(
    s: Form,
    swords: &[u64],
    srows: &[u32],
    r: Form,
    rwords: &[u64],
    rrows: &[u32],
    room: u64,
) -> Result<Judged, Refusal>
    ensures { result ≡ judged_all (lent s swords.now srows.now) (lent r rwords.now rrows.now) room }
{
    let both = judge_both(s, swords, srows, r, rwords, rrows)?;
    equal(length_of(r), both.rows)?;
    has_room(words_for(length_of(s)), room)?;
    Ok(both)
}

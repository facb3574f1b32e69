// The checks of a set operation, part by part as its table has them; the first part that refuses is what is told.
ghost use Rattle.std.specs.Prelude.{◌≡◌};
ghost use Rattle.rows.specs.Table.{first};
ghost use Rattle.rules.specs.SetOps.{pair_checks, not_checks};
ghost use Rattle.rules.specs.Operand.{lent};

use lent::inner::words_for;
use operand::inner::checks::check_set;
use operand::inner::forms::length_of;
use rows::inner::verdicts::{equal, has_room};
use rows::{Refusal, Which};
use rules::Form;

// Two operands.
pub fn judge_two(
    a: Form,
    awords: &[u64],
    arows: &[u32],
    b: Form,
    bwords: &[u64],
    brows: &[u32],
    room: u64,
) -> Result<(), Refusal>
    ensures { result ≡ first (pair_checks (lent a awords.now arows.now) (lent b bwords.now brows.now) room) }
{
    check_set(Which::First, a, awords, arows)?;
    check_set(Which::Second, b, bwords, brows)?;
    equal(length_of(a), length_of(b))?;
    has_room(words_for(length_of(a)), room)
}

// One operand.
pub fn judge_one(a: Form, awords: &[u64], arows: &[u32], room: u64) -> Result<(), Refusal>
    ensures { result ≡ first (not_checks (lent a awords.now arows.now) room) }
{
    check_set(Which::First, a, awords, arows)?;
    has_room(words_for(length_of(a)), room)
}

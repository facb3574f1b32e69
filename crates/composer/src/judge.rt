// The checks of a feed, part by part as its table has them: the first part that refuses ends them.
ghost use Rattle.std.specs.Prelude.{◌≡◌};
ghost use Rattle.rows.specs.Table.{first};
ghost use Rattle.rules.specs.Operand.{lent};
ghost use Rattle.rules.specs.Stream.{pair_of, piece_checks, judged};
ghost use Rattle.intersect_by_rank.specs.Judged.{judged_by};

use super::Composer;
use intersect_by_rank::inner::judge::{Judged, judge_both};
use lent::inner::words_for;
use operand::inner::forms::length_of;
use operand::inner::states::judge_state;
use rows::inner::verdicts::{at_most, equal, has_room};
use rows::{Reason, Refusal};
use rules::{Form, State};

// The rank piece is as long as the self piece has set rows; and where the piece would end is within the limit, and within the output.
fn judge_lengths(ranks: u64, set: u64, end: u64, room: u64) -> Result<(), Refusal>
    ensures { result ≡ first (piece_checks ranks set end room) }
{
    equal(ranks, set)?;
    at_most(Reason::StreamOverLimit, end, Composer::ROW_LIMIT)?;
    has_room(words_for(end), room)
}

// The checks of a feed, with the counts of both pieces. The sum does not wrap, for the state and the piece are within their limits.
pub fn judge(
    state: State,
    s: Form,
    swords: &[u64],
    srows: &[u32],
    r: Form,
    rwords: &[u64],
    rrows: &[u32],
    room: u64,
) -> Result<Judged, Refusal>
    ensures { result ≡ judged_by (judged state (pair_of (lent s swords.now srows.now) (lent r rwords.now rrows.now)) room)
        (lent s swords.now srows.now) (lent r rwords.now rrows.now) }
{
    judge_state(state.done, state.ranks, state.kept)?;
    let both = judge_both(s, swords, srows, r, rwords, rrows)?;
    let end = state.done.0 + length_of(s);
    judge_lengths(length_of(r), both.rows, end, room)?;
    Ok(both)
}

// The checks of a feed, part by part as its table has them: the first part that refuses ends them.
ghost use Rattle.std.specs.Prelude.{◌≡◌, ◌+◌, ◌≤◌};
ghost use Rattle.rows.specs.Table.{first};
ghost use Rattle.rules.specs.Operand.{lent, length_of, count_of, limit, Accepted};
ghost use Rattle.rules.specs.RecoverStream.{masks_of, judged};
ghost use Rattle.recover.specs.Judged.{judged_by};
ghost use Rattle.recoverer.specs.Pieces.{piece_checks};

use super::Recoverer;
use operand::inner::forms::length_of;
use operand::inner::states::judge_state;
use recover::inner::judge::{Matched, judge_inside, judge_masks};
use rows::inner::verdicts::at_most;
use rows::{Reason, Refusal};
use rules::{Form, RecoveryState};

// Where the piece would end is within the limit: else 11; and then 17 and 8. The sums do not wrap, for the state and the piece are within their limits.
fn judge_piece(
    state: RecoveryState,
    s: Form,
    swords: &[u64],
    srows: &[u32],
    k: Form,
    kwords: &[u64],
    krows: &[u32],
    set: u64,
    room: u64,
) -> Result<(), Refusal>
    requires { Accepted (lent s swords.now srows.now) × Accepted (lent k kwords.now krows.now) × (length_of k ≡ length_of s)
        × (set ≡ count_of (lent s swords.now srows.now)) × (state.done.0 ≤ limit) × (state.ranks.0 ≤ limit) }
    ensures { result ≡ first (piece_checks state (masks_of (lent s swords.now srows.now) (lent k kwords.now krows.now)) room) }
{
    let end = state.done.0 + length_of(s);
    at_most(Reason::StreamOverLimit, end, Recoverer::ROW_LIMIT)?;
    let bits = state.ranks.0 + set;
    judge_inside(s, swords, srows, k, kwords, krows, bits, room)
}

// The checks of a feed, with the counts of both pieces.
pub fn judge(
    state: RecoveryState,
    s: Form,
    swords: &[u64],
    srows: &[u32],
    k: Form,
    kwords: &[u64],
    krows: &[u32],
    room: u64,
) -> Result<Matched, Refusal>
    ensures { result ≡ judged_by (judged state (masks_of (lent s swords.now srows.now) (lent k kwords.now krows.now)) room)
        (lent s swords.now srows.now) (lent k kwords.now krows.now) }
{
    judge_state(state.done, state.ranks, state.kept)?;
    let matched = judge_masks(s, swords, srows, k, kwords, krows)?;
    judge_piece(state, s, swords, srows, k, kwords, krows, matched.set, room)?;
    Ok(matched)
}

// An accepted feed: the piece recovered and laid from the first rank not fed on, and the state moved past it.
ghost use Rattle.std.specs.Prelude.{◌≡◌, ◌+◌, ◌≤◌, length};
ghost use Rattle.rules.specs.Operand.{lent, limit};
ghost use Rattle.rules.specs.RecoverStream.{masks_of, state_of, judged, fed_by, out_by};
ghost use Rattle.operand.specs.Counts.{Counts};

use operand::inner::answers::accepted;
use operand::inner::counts::Counted;
use operand::inner::forms::length_of;
use recover::inner::lay::lay_recovery;
use rows::{Rank, Row};
use rules::{Fed, RecoveryState};

// The state past so many rows more, so many of them self's, and so many of those kept.
fn moved(state: RecoveryState, rows: Row, ranks: Rank, kept: u64) -> RecoveryState
    requires { (state.done.0 + rows.0 ≤ limit) × (state.ranks.0 + ranks.0 ≤ limit) × (state.kept + kept ≤ limit) }
    ensures { result ≡ state_of (state.done.0 + rows.0) (state.ranks.0 + ranks.0) (state.kept + kept) }
{
    let done = state.done.0 + rows.0;
    let passed = state.ranks.0 + ranks.0;
    RecoveryState {
        done: Row(done),
        ranks: Rank(passed),
        kept: state.kept + kept,
    }
}

// As many ranks are set as the second mask's piece has rows.
pub fn step(
    state: RecoveryState,
    s: Counted,
    swords: &[u64],
    srows: &[u32],
    k: Counted,
    kwords: &[u64],
    krows: &[u32],
    out: &mut [u64],
) -> Fed<RecoveryState>
    requires { (judged state (masks_of (lent s.form swords.now srows.now) (lent k.form kwords.now krows.now)) (length out.old) ≡ Ok tt)
        × Counts s swords.now srows.now × Counts k kwords.now krows.now }
    ensures { (result ≡ fed_by (Ok tt) state (masks_of (lent s.form swords.now srows.now) (lent k.form kwords.now krows.now)))
        × (out.new ≡ out_by (Ok tt) state (masks_of (lent s.form swords.now srows.now) (lent k.form kwords.now krows.now)) out.old) }
{
    let at = state.ranks.0;
    let own = s.form;
    let other = k.form;
    let rows = Row(length_of(own));
    let ranks = Rank(s.count);
    let next = moved(state, rows, ranks, k.count);
    lay_recovery(s, swords, srows, other, kwords, krows, at, out);
    Fed {
        answer: Ok(accepted(k.count, None, s.count)),
        state: next,
    }
}

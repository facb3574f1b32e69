// Recovery in pieces: matching pieces of both masks, recovered piece by piece onto one output. Document 02, P6.
#![tactic(auto)]

ghost use Rattle.std.specs.Prelude.{◌≡◌};
ghost use Rattle.rules.specs.Operand.{lent};
ghost use Rattle.rules.specs.RecoverStream.{masks_of, fresh, fed, fed_out};

use judge::judge;
use operand::inner::counts::Counted;
use rows::{Rank, Row};
use rules::{Fed, Form, RecoveryState};
use step::step;

mod judge;
mod step;

// The recoverer itself: how many rows a stream may have, and the state of a stream that was fed nothing.
#[derive(Clone, Copy)]
pub struct Recoverer;

impl Recoverer {
    pub const ROW_LIMIT: u64 = operand::inner::states::ROW_LIMIT;

    pub fn fresh() -> RecoveryState
        ensures { result ≡ fresh }
    {
        RecoveryState {
            done: Row(0),
            ranks: Rank(0),
            kept: 0,
        }
    }
}

// One feed: a piece of self and the second mask's piece of the same rows, recovered and laid onto the output from the first rank not fed on. s is
// self's piece and k the second mask's, each with what is lent beside it.
pub fn feed(
    state: RecoveryState,
    s: Form,
    swords: &[u64],
    srows: &[u32],
    k: Form,
    kwords: &[u64],
    krows: &[u32],
    out: &mut [u64],
) -> Fed<RecoveryState>
    ensures { (result ≡ fed state (masks_of (lent s swords.now srows.now) (lent k kwords.now krows.now)) out.old)
        × (out.new ≡ fed_out state (masks_of (lent s swords.now srows.now) (lent k kwords.now krows.now)) out.old) }
{
    match judge(state, s, swords, srows, k, kwords, krows, out.len() as u64) {
        Err(refusal) => Fed {
            answer: Err(refusal),
            state,
        },
        Ok(judged) => {
            let own = Counted {
                form: s,
                count: judged.set,
            };
            let other = Counted {
                form: k,
                count: judged.kept,
            };
            step(state, own, swords, srows, other, kwords, krows, out)
        }
    }
}

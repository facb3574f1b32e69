// The stream composer: self and the rank mask in pieces, laid back piece by piece onto one output. Document 01, part 9.
#![tactic(auto)]

ghost use Rattle.std.specs.Prelude.{◌≡◌};
ghost use Rattle.rules.specs.Operand.{lent};
ghost use Rattle.rules.specs.Stream.{pair_of, fresh, fed, fed_out};

use judge::judge;
use operand::inner::counts::Counted;
use rows::{Rank, Row};
use rules::{Fed, Form, State};
use step::step;

mod judge;
mod step;

// The composer itself: how many rows a stream may have, and the state of a stream that was fed nothing.
#[derive(Clone, Copy)]
pub struct Composer;

impl Composer {
    pub const ROW_LIMIT: u64 = operand::inner::states::ROW_LIMIT;

    pub fn fresh() -> State
        ensures { result ≡ fresh }
    {
        State {
            done: Row(0),
            ranks: Rank(0),
            kept: 0,
        }
    }
}

// One feed: a piece of self and a piece of the rank mask, as long as self's piece has set rows, composed and laid onto the output from
// the first row not fed on. s is self's piece and r the rank mask's, each with what is lent beside it.
pub fn feed(
    state: State,
    s: Form,
    swords: &[u64],
    srows: &[u32],
    r: Form,
    rwords: &[u64],
    rrows: &[u32],
    out: &mut [u64],
) -> Fed<State>
    ensures { (result ≡ fed state (pair_of (lent s swords.now srows.now) (lent r rwords.now rrows.now)) out.old)
        × (out.new ≡ fed_out state (pair_of (lent s swords.now srows.now) (lent r rwords.now rrows.now)) out.old) }
{
    match judge(state, s, swords, srows, r, rwords, rrows, out.len() as u64) {
        Err(refusal) => Fed {
            answer: Err(refusal),
            state,
        },
        Ok(judged) => {
            let own = Counted {
                form: s,
                count: judged.rows,
            };
            let ranked = Counted {
                form: r,
                count: judged.ranks,
            };
            step(state, own, swords, srows, ranked, rwords, rrows, out)
        }
    }
}

// An accepted feed: the piece composed and laid from the first row not fed on, and the state moved past it.
ghost use Rattle.std.specs.Prelude.{◌≡◌, ◌+◌, ◌≤◌, length};
ghost use Rattle.rules.specs.Operand.{lent, limit};
ghost use Rattle.operand.specs.Counts.{Counts};
ghost use Rattle.rules.specs.Stream.{pair_of, state_of, judged, fed_by, out_by};

use intersect_by_rank::inner::lay::lay_composition;
use operand::inner::counts::Counted;
use operand::inner::forms::length_of;
use routes::inner::document_factors;
use rows::{Rank, Row};
use rules::{Fed, State};

// The state past so many rows more, so many of them set, and so many of those kept.
fn moved(state: State, rows: Row, ranks: Rank, kept: u64) -> State
    requires { (state.done.0 + rows.0 ≤ limit) × (state.ranks.0 + ranks.0 ≤ limit) × (state.kept + kept ≤ limit) }
    ensures { result ≡ state_of (state.done.0 + rows.0) (state.ranks.0 + ranks.0) (state.kept + kept) }
{
    let done = state.done.0 + rows.0;
    let passed = state.ranks.0 + ranks.0;
    State {
        done: Row(done),
        ranks: Rank(passed),
        kept: state.kept + kept,
    }
}

// As many rows are kept as the rank piece sets.
pub fn step(
    state: State,
    s: Counted,
    swords: &[u64],
    srows: &[u32],
    r: Counted,
    rwords: &[u64],
    rrows: &[u32],
    out: &mut [u64],
) -> Fed<State>
    requires { (judged state (pair_of (lent s.form swords.now srows.now) (lent r.form rwords.now rrows.now)) (length out.old) ≡ Ok tt)
        × Counts s swords.now srows.now × Counts r rwords.now rrows.now }
    ensures { (result ≡ fed_by (Ok tt) state (pair_of (lent s.form swords.now srows.now) (lent r.form rwords.now rrows.now)))
        × (out.new ≡ out_by (Ok tt) state (pair_of (lent s.form swords.now srows.now) (lent r.form rwords.now rrows.now)) out.old) }
{
    let at = state.done.0;
    let form = s.form;
    let rows = Row(length_of(form));
    let ranks = Rank(s.count);
    let next = moved(state, rows, ranks, r.count);
    let factors = document_factors();
    let summary = lay_composition(factors, s, swords, srows, r, rwords, rrows, at, out);
    Fed {
        answer: Ok(summary),
        state: next,
    }
}

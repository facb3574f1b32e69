// The composition of two accepted operands laid over the output from any bit on, by the route that the table names, and its summary.
ghost use Rattle.std.specs.Prelude.{◌≡◌};
ghost use Rattle.rows.specs.Laid.{laid};
ghost use Rattle.rows.specs.Asks.{Room};
ghost use Rattle.rules.specs.Operand.{lent, length_of};
ghost use Rattle.rules.specs.Answer.{summed};
ghost use Rattle.rules.specs.Compose.{Paired, result as composition, routed};
ghost use Rattle.operand.specs.Counts.{Counts};

use by_route::inner::lay_by_route;
use operand::inner::answers::accepted;
use operand::inner::counts::Counted;
use operand::inner::forms::length_of;
use routes::inner::choose_route;
use rules::{Factors, Summary};

// The composition of two accepted operands laid from bit at on, and its summary. The route is computed once, taken and told; as many
// rows are set as the rank mask sets.
pub fn lay_composition(
    factors: Factors,
    s: Counted,
    swords: &[u64],
    srows: &[u32],
    r: Counted,
    rwords: &[u64],
    rrows: &[u32],
    at: u64,
    out: &mut [u64],
) -> Summary
    requires { Paired (lent s.form swords.now srows.now) (lent r.form rwords.now rrows.now)
        × Counts s swords.now srows.now × Counts r rwords.now rrows.now × Room at (length_of s.form) out.old }
    ensures { (result ≡ summed (composition (lent s.form swords.now srows.now) (lent r.form rwords.now rrows.now)) (routed factors (lent s.form swords.now srows.now) (lent r.form rwords.now rrows.now)))
        × (out.new ≡ laid at (composition (lent s.form swords.now srows.now) (lent r.form rwords.now rrows.now)) out.old) }
{
    let own = s.form;
    let ranked = r.form;
    let route = choose_route(factors, s, r);
    lay_by_route(route, own, swords, srows, ranked, rwords, rrows, at, out);
    accepted(r.count, Some(route), length_of(own))
}

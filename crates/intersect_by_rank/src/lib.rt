// Composition by rank: a rank mask laid back onto the rows of self. Document 01, part 7; part 6 is `marks` and `deposits`.
#![tactic(auto)]

ghost use Rattle.std.specs.Prelude.{◌≡◌};
ghost use Rattle.rules.specs.Operand.{lent};
ghost use Rattle.rules.specs.Route.{published};
ghost use Rattle.rules.specs.Compose.{composed, composed_out};

use inner::compose::compose_with;
use routes::inner::document_factors;
use rows::Refusal;
use rules::{Form, Summary};

pub mod inner;

// The rows of self whose ranks the rank mask sets, as words. s is self and r the rank mask, each with what is lent beside it.
pub fn intersect_by_rank(
    s: Form,
    swords: &[u64],
    srows: &[u32],
    r: Form,
    rwords: &[u64],
    rrows: &[u32],
    out: &mut [u64],
) -> Result<Summary, Refusal>
    ensures { (result ≡ composed published (lent s swords.now srows.now) (lent r rwords.now rrows.now) out.old)
        × (out.new ≡ composed_out (lent s swords.now srows.now) (lent r rwords.now rrows.now) out.old) }
{
    compose_with(document_factors(), s, swords, srows, r, rwords, rrows, out)
}

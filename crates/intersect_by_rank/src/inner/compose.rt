// A whole composition, with the factors handed in: its checks, the rows written, and the answer.
ghost use Rattle.std.specs.Prelude.{◌≡◌, ◌≤◌, length};
ghost use Rattle.rows.specs.Laid.{words_for, written};
ghost use Rattle.rules.specs.Operand.{lent, length_of};
ghost use Rattle.rules.specs.Answer.{summed};
ghost use Rattle.operand.specs.Counts.{Counts};
ghost use Rattle.rules.specs.Compose.{Paired, result as composition, routed, composed, composed_out};

use super::judge::judge;
use super::lay::lay_composition;
use laid::inner::clear_last;
use operand::inner::counts::Counted;
use operand::inner::forms::length_of;
use rows::Refusal;
use rules::{Factors, Form, Summary};

// The same as whole words from the start on.
fn compose_accepted(
    factors: Factors,
    s: Counted,
    swords: &[u64],
    srows: &[u32],
    r: Counted,
    rwords: &[u64],
    rrows: &[u32],
    out: &mut [u64],
) -> Summary
    requires { Paired (lent s.form swords.now srows.now) (lent r.form rwords.now rrows.now)
        × Counts s swords.now srows.now × Counts r rwords.now rrows.now × (words_for (length_of s.form) ≤ length out.old) }
    ensures { (result ≡ summed (composition (lent s.form swords.now srows.now) (lent r.form rwords.now rrows.now)) (routed factors (lent s.form swords.now srows.now) (lent r.form rwords.now rrows.now)))
        × (out.new ≡ written (length_of s.form) (composition (lent s.form swords.now srows.now) (lent r.form rwords.now rrows.now)) out.old) }
{
    let form = s.form;
    clear_last(out, length_of(form));
    lay_composition(factors, s, swords, srows, r, rwords, rrows, 0, out)
}

// With any factors: they decide the route and nothing else.
pub fn compose_with(
    factors: Factors,
    s: Form,
    swords: &[u64],
    srows: &[u32],
    r: Form,
    rwords: &[u64],
    rrows: &[u32],
    out: &mut [u64],
) -> Result<Summary, Refusal>
    ensures { (result ≡ composed factors (lent s swords.now srows.now) (lent r rwords.now rrows.now) out.old)
        × (out.new ≡ composed_out (lent s swords.now srows.now) (lent r rwords.now rrows.now) out.old) }
{
    let judged = judge(s, swords, srows, r, rwords, rrows, out.len() as u64)?;
    let own = Counted {
        form: s,
        count: judged.rows,
    };
    let ranked = Counted {
        form: r,
        count: judged.ranks,
    };
    Ok(compose_accepted(factors, own, swords, srows, ranked, rwords, rrows, out))
}

// From rows back to ranks: the rank mask that would have kept the rows of a second mask from self. Document 02, P6.
#![tactic(auto)]

ghost use Rattle.std.specs.Prelude.{◌≡◌};
ghost use Rattle.rules.specs.Operand.{lent};
ghost use Rattle.rules.specs.Recover.{recovered, recovered_out};

use inner::judge::judge;
use inner::whole::recover_within;
use operand::inner::counts::Counted;
use rows::Refusal;
use rules::{Form, Summary};

pub mod inner;

// A bit for each of self's set rows: whether the second mask has the row. All of its rows lie in self: else refusal 17 tells the first that does
// not. s is self and k the second mask, each with what is lent beside it.
pub fn recover(
    s: Form,
    swords: &[u64],
    srows: &[u32],
    k: Form,
    kwords: &[u64],
    krows: &[u32],
    out: &mut [u64],
) -> Result<Summary, Refusal>
    ensures { (result ≡ recovered (lent s swords.now srows.now) (lent k kwords.now krows.now) out.old)
        × (out.new ≡ recovered_out (lent s swords.now srows.now) (lent k kwords.now krows.now) out.old) }
{
    let judged = judge(s, swords, srows, k, kwords, krows, out.len() as u64)?;
    let own = Counted {
        form: s,
        count: judged.set,
    };
    let other = Counted {
        form: k,
        count: judged.kept,
    };
    Ok(recover_within(own, swords, srows, other, kwords, krows, out))
}

// An operation on two operands.
ghost use Rattle.std.specs.Prelude.{◌≡◌};
ghost use Rattle.rules.specs.Operand.{lent};
ghost use Rattle.rules.specs.SetOps.{row_of, combined, combined_out};

use super::judge::judge_two;
use rows::Refusal;
use rowwise::inner::answer;
use rules::{Form, Operation, Summary};

// An operation on two operands, checked.
pub fn combine(
    op: Operation,
    a: Form,
    awords: &[u64],
    arows: &[u32],
    b: Form,
    bwords: &[u64],
    brows: &[u32],
    out: &mut [u64],
) -> Result<Summary, Refusal>
    ensures { (result ≡ combined (row_of op) (lent a awords.now arows.now) (lent b bwords.now brows.now) out.old)
        × (out.new ≡ combined_out (row_of op) (lent a awords.now arows.now) (lent b bwords.now brows.now) out.old) }
{
    judge_two(a, awords, arows, b, bwords, brows, out.len() as u64)?;
    Ok(answer(op, a, awords, b, bwords, out))
}

// Set operations: and, or, and-not of two operands, and not of one. All, none and words in, words out: document 01, part 8.
#![tactic(auto)]

ghost use Rattle.std.specs.Prelude.{◌≡◌, ◌&&◌, ◌||◌};
ghost use Rattle.rules.specs.SetOps.{and_not, combined, combined_out, negated, negated_out};
ghost use Rattle.rules.specs.Operand.{lent};

use combine::combine;
use judge::judge_one;
use rows::Refusal;
use rowwise::inner::answer;
use rules::{Form, Operation, Summary};

mod combine;
mod judge;

// The rows in both.
pub fn and(
    a: Form,
    awords: &[u64],
    arows: &[u32],
    b: Form,
    bwords: &[u64],
    brows: &[u32],
    out: &mut [u64],
) -> Result<Summary, Refusal>
    ensures { (result ≡ combined ◌&&◌ (lent a awords.now arows.now) (lent b bwords.now brows.now) out.old)
        × (out.new ≡ combined_out ◌&&◌ (lent a awords.now arows.now) (lent b bwords.now brows.now) out.old) }
{
    combine(Operation::And, a, awords, arows, b, bwords, brows, out)
}

// The rows in either.
pub fn or(
    a: Form,
    awords: &[u64],
    arows: &[u32],
    b: Form,
    bwords: &[u64],
    brows: &[u32],
    out: &mut [u64],
) -> Result<Summary, Refusal>
    ensures { (result ≡ combined ◌||◌ (lent a awords.now arows.now) (lent b bwords.now brows.now) out.old)
        × (out.new ≡ combined_out ◌||◌ (lent a awords.now arows.now) (lent b bwords.now brows.now) out.old) }
{
    combine(Operation::Or, a, awords, arows, b, bwords, brows, out)
}

// The rows in the first only.
pub fn and_not(
    a: Form,
    awords: &[u64],
    arows: &[u32],
    b: Form,
    bwords: &[u64],
    brows: &[u32],
    out: &mut [u64],
) -> Result<Summary, Refusal>
    ensures { (result ≡ combined and_not (lent a awords.now arows.now) (lent b bwords.now brows.now) out.old)
        × (out.new ≡ combined_out and_not (lent a awords.now arows.now) (lent b bwords.now brows.now) out.old) }
{
    combine(Operation::AndNot, a, awords, arows, b, bwords, brows, out)
}

// The rows not in the one operand, which is lent to the loop twice.
pub fn not(a: Form, awords: &[u64], arows: &[u32], out: &mut [u64]) -> Result<Summary, Refusal>
    ensures { (result ≡ negated (lent a awords.now arows.now) out.old)
        × (out.new ≡ negated_out (lent a awords.now arows.now) out.old) }
{
    judge_one(a, awords, arows, out.len() as u64)?;
    Ok(answer(Operation::Not, a, awords, a, awords, out))
}

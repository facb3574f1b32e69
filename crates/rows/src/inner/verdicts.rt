// A refusal is made here and handed up whole; and the checks that tables of several operations have.
ghost use Rattle.std.specs.Prelude.{◌≡◌, [], ◌∷◌, Some, None};
ghost use Rattle.std.proofs.Math.Decide.{ℕ_discrete, dec_le};
ghost use Rattle.rows.specs.Table.{first, need, refusal, no_operand};

use super::super::{Reason, Refusal, Which};

// A refusal of one operand.
pub fn refusal_of(operand: Which, reason: Reason) -> Refusal
    ensures { result ≡ refusal reason (Some operand) }
{
    Refusal {
        reason,
        operand: Some(operand),
    }
}

// A refusal that names no operand.
pub fn refusal(reason: Reason) -> Refusal
    ensures { result ≡ refusal reason no_operand }
{
    Refusal {
        reason,
        operand: None,
    }
}

// A number that is over what an operation's table allows.
pub fn at_most(reason: Reason, a: u64, most: u64) -> Result<(), Refusal>
    ensures { result ≡ first (need (dec_le a most) reason no_operand ∷ []) }
{
    if most < a {
        return Err(refusal(reason));
    }
    Ok(())
}

// The output is no shorter than what is needed.
pub fn has_room(needed: u64, room: u64) -> Result<(), Refusal>
    ensures { result ≡ first (need (dec_le needed room) Reason.NoRoom no_operand ∷ []) }
{
    at_most(Reason::NoRoom, needed, room)
}

// Two numbers that an operation's table has equal.
pub fn equal(a: u64, b: u64) -> Result<(), Refusal>
    ensures { result ≡ first (need (ℕ_discrete a b) Reason.LengthsDiffer no_operand ∷ []) }
{
    if a != b {
        return Err(refusal(Reason::LengthsDiffer));
    }
    Ok(())
}

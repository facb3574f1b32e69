// What a conversion tells of an operand that is its own result.
ghost use Rattle.std.specs.Prelude.{◌≡◌, ◌≤◌};
ghost use Rattle.rules.specs.Operand.{length_of, limit};
ghost use Rattle.rules.specs.Answer.{accepted, no_route};

use operand::inner::answers::accepted;
use operand::inner::counts::Counted;
use operand::inner::forms::length_of;
use rules::Summary;

pub fn own_answer(operand: Counted) -> Summary
    requires { (operand.count ≤ limit) × (length_of operand.form ≤ limit) }
    ensures { result ≡ accepted operand.count no_route (length_of operand.form) }
{
    accepted(operand.count, None, length_of(operand.form))
}

// What set operations call: the rows of an accepted one written, and its summary.
ghost use Rattle.std.specs.Prelude.{◌≡◌, [], ◌≤◌, length};
ghost use Rattle.rows.specs.Laid.{words_for, written};
ghost use Rattle.rules.specs.Operand.{lent, length_of};
ghost use Rattle.rules.specs.Answer.{summed, no_route};
ghost use Rattle.rules.specs.SetOps.{combination, row_of};
ghost use Rattle.operand.specs.Flat.{Abreast};

use super::write::write;
use operand::inner::answers::accepted;
use operand::inner::forms::length_of;
use rules::{Form, Operation, Summary};

// The rows written, and the summary of them.
pub fn answer(
    op: Operation,
    a: Form,
    awords: &[u64],
    b: Form,
    bwords: &[u64],
    out: &mut [u64],
) -> Summary
    requires { Abreast (lent a awords.now []) (lent b bwords.now []) × (words_for (length_of a) ≤ length out.old) }
    ensures { (result ≡ summed (combination (row_of op) (lent a awords.now []) (lent b bwords.now [])) no_route)
        × (out.new ≡ written (length_of a) (combination (row_of op) (lent a awords.now []) (lent b bwords.now [])) out.old) }
{
    let count = write(op, a, awords, b, bwords, out);
    accepted(count, None, length_of(a))
}

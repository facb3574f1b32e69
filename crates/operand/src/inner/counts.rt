// An operand's count: told once, by its checks, and handed on by value beside the form. Nothing counts or sums again.
ghost use Rattle.std.specs.Prelude.{◌≡◌};
ghost use Rattle.rules.specs.Operand.{empty_by, full_by};

use super::forms::length_of;
use rules::Form;

// A form with its count.
#[derive(Clone, Copy)]
pub struct Counted {
    pub form: Form,
    pub count: u64,
}

// Its count is 0.
pub fn is_empty(operand: Counted) -> bool
    ensures { result ≡ empty_by operand.count }
{
    operand.count == 0
}

// Its length is above 0, and its count equals it.
pub fn is_full(operand: Counted) -> bool
    ensures { result ≡ full_by operand.form operand.count }
{
    let form = operand.form;
    let length = length_of(form);
    if length == 0 {
        return false;
    }
    operand.count == length
}

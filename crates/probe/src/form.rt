// An operand's form, by its number.
ghost use Rattle.std.specs.Prelude.{◌≡◌};
ghost use Rattle.cells.specs.Probe.{form_of};

use rules::Form;

#[tactic(auto, unfolding(cells::specs::Probe::form_of))]
pub fn form_of(kind: u64, length: u64, start: u64, claimed: u64) -> Option<Form>
    ensures { result ≡ form_of kind length start claimed }
{
    match kind {
        0 => Some(Form::All { length }),
        1 => Some(Form::None { length }),
        2 => Some(Form::Words {
            start,
            length,
            claimed,
        }),
        3 => Some(Form::List { length }),
        4 => Some(Form::Runs { length }),
        _ => None,
    }
}

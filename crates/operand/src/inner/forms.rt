// What is asked of an operand's form: its length, where its words start, and what kind of mask it is.
ghost use Rattle.std.specs.Prelude.{◌≡◌};
ghost use Rattle.rules.specs.Operand.{length_of, counts_as_list};
ghost use Rattle.operand.specs.Flat.{has_row_numbers, has_runs, has_words, start_of};

use rules::Form;

pub fn length_of(form: Form) -> u64
    ensures { result ≡ length_of form }
{
    match form {
        Form::All { length }
        | Form::None { length }
        | Form::Words { length, .. }
        | Form::List { length }
        | Form::Runs { length } => length,
    }
}

// The bit of the lent words that has row 0.
pub fn start_of(form: Form) -> u64
    ensures { result ≡ start_of form }
{
    match form {
        Form::Words { start, .. } => start,
        _ => 0,
    }
}

// It counts as a list: for the route, and a set operation takes none.
pub fn counts_as_list(form: Form) -> bool
    ensures { result ≡ counts_as_list form }
{
    matches!(form, Form::List { .. } | Form::Runs { .. })
}

// The numbers lent beside it are its set rows.
pub fn has_row_numbers(form: Form) -> bool
    ensures { result ≡ has_row_numbers form }
{
    matches!(form, Form::List { .. })
}

// They are its runs, in pairs.
pub fn has_runs(form: Form) -> bool
    ensures { result ≡ has_runs form }
{
    matches!(form, Form::Runs { .. })
}

// Its rows are bits of the words lent.
pub fn has_words(form: Form) -> bool
    ensures { result ≡ has_words form }
{
    matches!(form, Form::Words { .. })
}

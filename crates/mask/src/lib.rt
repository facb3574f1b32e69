// The conversions of an operand, checked: any form to words, to a list, and to runs.
#![tactic(auto)]

ghost use Rattle.std.specs.Prelude.{◌≡◌};
ghost use Rattle.rules.specs.Operand.{lent};
ghost use Rattle.rules.specs.Convert.{to_words, to_words_out, to_list, to_list_out, to_runs, to_runs_out};

use convert::{convert_to_list, convert_to_runs, convert_to_words};
use lent::inner::words_for;
use operand::inner::checks::check;
use operand::inner::counts::Counted;
use operand::inner::forms::length_of;
use rows::inner::verdicts::has_room;
use rows::{Refusal, Which};
use rules::{Form, Summary, Written};

mod convert;
pub mod inner;
mod list;

// Any form to words: start 0, the bits past the length in the last word 0, later words as they were.
pub fn to_words(
    form: Form,
    words: &[u64],
    rows: &[u32],
    out: &mut [u64],
) -> Result<Summary, Refusal>
    ensures { (result ≡ to_words (lent form words.now rows.now) out.old)
        × (out.new ≡ to_words_out (lent form words.now rows.now) out.old) }
{
    let count = check(Which::First, form, words, rows)?;
    has_room(words_for(length_of(form)), out.len() as u64)?;
    Ok(convert_to_words(Counted { form, count }, words, rows, out))
}

// Any form to a list: an entry for each set row, ascending, later entries as they were.
pub fn to_list(form: Form, words: &[u64], rows: &[u32], out: &mut [u32]) -> Result<Summary, Refusal>
    ensures { (result ≡ to_list (lent form words.now rows.now) out.old)
        × (out.new ≡ to_list_out (lent form words.now rows.now) out.old) }
{
    let count = check(Which::First, form, words, rows)?;
    has_room(count, out.len() as u64)?;
    Ok(convert_to_list(Counted { form, count }, words, rows, out))
}

// Any form to runs: the only runs that its rows have, two numbers for each, later numbers as they were.
pub fn to_runs(form: Form, words: &[u64], rows: &[u32], out: &mut [u32]) -> Result<Written, Refusal>
    ensures { (result ≡ to_runs (lent form words.now rows.now) out.old)
        × (out.new ≡ to_runs_out (lent form words.now rows.now) out.old) }
{
    let count = check(Which::First, form, words, rows)?;
    convert_to_runs(Counted { form, count }, words, rows, out)
}

// Runs as records at the edge: a lent slice of runs to numbers and to words, and numbers and masks to records.
#![tactic(auto)]

ghost use Rattle.std.specs.Prelude.{◌≡◌, []};
ghost use Rattle.rules.specs.declared.Form.TheVariants.{Runs};
ghost use Rattle.rules.specs.Operand.{lent};
ghost use Rattle.rules.specs.Convert.{to_words, to_words_out, to_runs, to_runs_out};
ghost use Rattle.rules.specs.Records.{numbers_of, to_numbers, to_numbers_out, to_records, to_records_out};

use laid::inner::clear_last;
use lent::inner::words_for;
use mask::inner::answers::own_answer;
use mask::inner::runs::count_runs;
use operand::inner::answers::accepted;
use operand::inner::checks::check;
use operand::inner::counts::Counted;
use rows::inner::verdicts::{has_room, refusal_of};
use rows::{Reason, Refusal, Which};
use rules::{Form, Run, Summary, Written};
use search::write_found;
use words::{check_runs, lay_runs};

mod search;
mod words;

// Records to numbers: two for each run, over the front of out; later numbers stay.
pub fn to_numbers(runs: &[Run], out: &mut [u32]) -> Result<(), Refusal>
    ensures { (result ≡ to_numbers runs.now out.old) × (out.new ≡ to_numbers_out runs.now out.old) }
{
    has_room(runs.len() as u64 * 2, out.len() as u64)?;
    for (i, run) in runs.iter().enumerate() {
        out[2 * i] = run.first;
        out[2 * i + 1] = run.past;
    }
    Ok(())
}

// Numbers to records: one for each pair, over the front of out; later records stay.
pub fn to_records(numbers: &[u32], out: &mut [Run]) -> Result<(), Refusal>
    ensures { (result ≡ to_records numbers.now out.old) × (out.new ≡ to_records_out numbers.now out.old) }
{
    let (pairs, rest) = numbers.as_chunks::<2>();
    if !rest.is_empty() {
        return Err(refusal_of(Which::First, Reason::RunsUnfit));
    }
    has_room(pairs.len() as u64, out.len() as u64)?;
    for (i, &[first, past]) in pairs.iter().enumerate() {
        out[i] = Run { first, past };
    }
    Ok(())
}

// Records to words: what `to_words` tells and writes of their numbers, in two passes, so that nothing is written where a run does not fit.
pub fn runs_to_words(length: u64, runs: &[Run], out: &mut [u64]) -> Result<Summary, Refusal>
    ensures { (result ≡ to_words (lent (Runs length) [] (numbers_of runs.now)) out.old)
        × (out.new ≡ to_words_out (lent (Runs length) [] (numbers_of runs.now)) out.old) }
{
    let count = check_runs(length, runs)?;
    has_room(words_for(length), out.len() as u64)?;
    // the bits past the length in the last word
    clear_last(out, length);
    lay_runs(length, runs, out);
    Ok(accepted(count, None, length))
}

// Any form to records: what `to_runs` tells and writes, a record for each run; later records stay.
pub fn to_run_records(
    form: Form,
    words: &[u64],
    rows: &[u32],
    out: &mut [Run],
) -> Result<Written, Refusal>
    ensures { (result ≡ to_runs (lent form words.now rows.now) (numbers_of out.old))
        × (numbers_of out.new ≡ to_runs_out (lent form words.now rows.now) (numbers_of out.old)) }
{
    let count = check(Which::First, form, words, rows)?;
    let runs = count_runs(form, words, rows) / 2;
    has_room(runs, out.len() as u64)?;
    write_found(form, words, rows, &mut out[..runs as usize]);
    Ok(Written {
        summary: own_answer(Counted { form, count }),
        runs,
    })
}

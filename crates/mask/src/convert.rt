// The work of an accepted conversion: the operand's rows written, and its own summary.
ghost use Rattle.std.specs.Prelude.{◌≡◌, ◌++◌, ◌≤◌, length, drop};
ghost use Rattle.rows.specs.Lists.{set_rows};
ghost use Rattle.rows.specs.Laid.{words_for, written};
ghost use Rattle.rules.specs.Operand.{lent, rows_of, length_of, count_of, Accepted};
ghost use Rattle.rules.specs.Answer.{summed, no_route};
ghost use Rattle.rules.specs.Convert.{to_runs, to_runs_out};
ghost use Rattle.operand.specs.Counts.{Counts};

use super::inner::answers::own_answer;
use super::inner::lay::write_rows;
use super::inner::runs::{count_runs, write_runs};
use super::list::write_list;
use operand::inner::counts::Counted;
use rows::Refusal;
use rows::inner::verdicts::has_room;
use rules::{Summary, Written};

pub fn convert_to_words(operand: Counted, words: &[u64], rows: &[u32], out: &mut [u64]) -> Summary
    requires { Accepted (lent operand.form words.now rows.now) × Counts operand words.now rows.now × (words_for (length_of operand.form) ≤ length out.old) }
    ensures { (result ≡ summed (rows_of (lent operand.form words.now rows.now)) no_route)
        × (out.new ≡ written (length_of operand.form) (rows_of (lent operand.form words.now rows.now)) out.old) }
{
    write_rows(operand.form, words, rows, out);
    own_answer(operand)
}

pub fn convert_to_list(operand: Counted, words: &[u64], rows: &[u32], out: &mut [u32]) -> Summary
    requires { Accepted (lent operand.form words.now rows.now) × Counts operand words.now rows.now × (count_of (lent operand.form words.now rows.now) ≤ length out.old) }
    ensures { (result ≡ summed (rows_of (lent operand.form words.now rows.now)) no_route)
        × (out.new ≡ set_rows 0 (rows_of (lent operand.form words.now rows.now)) ++ drop (count_of (lent operand.form words.now rows.now)) out.old) }
{
    write_list(operand.form, words, rows, out);
    own_answer(operand)
}

// The numbers needed are known only by counting the operand's runs, and so the check for room is made here.
pub fn convert_to_runs(
    operand: Counted,
    words: &[u64],
    rows: &[u32],
    out: &mut [u32],
) -> Result<Written, Refusal>
    requires { Accepted (lent operand.form words.now rows.now) × Counts operand words.now rows.now }
    ensures { (result ≡ to_runs (lent operand.form words.now rows.now) out.old)
        × (out.new ≡ to_runs_out (lent operand.form words.now rows.now) out.old) }
{
    let numbers = count_runs(operand.form, words, rows);
    has_room(numbers, out.len() as u64)?;
    write_runs(operand.form, words, rows, out);
    Ok(Written {
        summary: own_answer(operand),
        runs: numbers / 2,
    })
}

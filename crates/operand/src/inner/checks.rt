// The checks of one operand, form by form: early returns in document 01's order.
ghost use Rattle.std.specs.Prelude.{◌≡◌, ◌&&◌, leb, ltb, ◌≤◌};
ghost use Rattle.rows.specs.Runs.{run_lengths};
ghost use Rattle.operand.specs.Counts.{checked_of};
ghost use Rattle.rows.specs.Table.{first, granted};
ghost use Rattle.rules.specs.Operand.{lent, climbs, last_below, runs_fit, length_checks, words_checks, list_checks, runs_checks, set_checks};

use super::forms::counts_as_list;
use lent::inner::{has_count, words_for};
use rows::inner::verdicts::refusal_of;
use rows::{Reason, Refusal, Which};
use rules::Form;
use turns::inner::sum_runs;

fn check_length(operand: Which, length: u64) -> Result<(), Refusal>
    ensures { result ≡ first (length_checks (Some operand) length) }
{
    if length > 1048576 {
        return Err(refusal_of(operand, Reason::LengthOverLimit));
    }
    Ok(())
}

fn check_words(
    operand: Which,
    start: u64,
    length: u64,
    claimed: u64,
    words: &[u64],
) -> Result<(), Refusal>
    ensures { result ≡ first (words_checks (Some operand) start length claimed words.now) }
{
    if length > 1048576 {
        return Err(refusal_of(operand, Reason::LengthOverLimit));
    }
    if start > 63 {
        return Err(refusal_of(operand, Reason::StartOver63));
    }
    if (words.len() as u64) < words_for(start + length) {
        return Err(refusal_of(operand, Reason::TooFewWords));
    }
    if !has_count(words, start, length, claimed) {
        return Err(refusal_of(operand, Reason::CountDiffers));
    }
    Ok(())
}

// Each entry is above the one before it. All are looked at, whatever is found: a loop with no way out is made of vectors.
fn ascends(rows: &[u32]) -> bool
    ensures { result ≡ climbs rows.now }
{
    let mut fine = true;
    for i in 1..rows.len() {
        if rows[i] <= rows[i - 1] {
            fine = false;
        }
    }
    fine
}

// The last entry, if there is one, is below the length.
fn last_below(length: u64, rows: &[u32]) -> bool
    ensures { result ≡ last_below length rows.now }
{
    let n = rows.len();
    if n == 0 {
        return true;
    }
    (rows[n - 1] as u64) < length
}

fn check_list(operand: Which, length: u64, rows: &[u32]) -> Result<(), Refusal>
    ensures { result ≡ first (list_checks (Some operand) length rows.now) }
{
    if length > 1048576 {
        return Err(refusal_of(operand, Reason::LengthOverLimit));
    }
    if !ascends(rows) {
        return Err(refusal_of(operand, Reason::NotAscending));
    }
    if !last_below(length, rows) {
        return Err(refusal_of(operand, Reason::EntryPastLength));
    }
    Ok(())
}

// A run that begins at least there, is not empty and is not past the length: for whoever weighs run by run.
pub fn run_fits(least: u64, first: u64, past: u64, length: u64) -> bool
    ensures { result ≡ (leb least first && (ltb first past && leb past length)) }
{
    if first < least {
        return false;
    }
    if past <= first {
        return false;
    }
    past <= length
}

// All runs fit: their numbers climb, as no run is empty and none touches the one before it, the last is within the length, and each has its
// pair.
fn runs_fit(length: u64, runs: &[u32]) -> bool
    requires { length ≤ 1048576 }
    ensures { result ≡ runs_fit 0 length runs.now }
{
    if runs.len() % 2 != 0 {
        return false;
    }
    if !ascends(runs) {
        return false;
    }
    last_below(length + 1, runs)
}

// The one check that sums. It does so once the runs are accepted: so the sum is at most the length, and wraps nowhere.
fn check_runs(operand: Which, length: u64, runs: &[u32]) -> Result<u64, Refusal>
    ensures { result ≡ granted (first (runs_checks (Some operand) length runs.now)) (run_lengths runs.now) }
{
    if length > 1048576 {
        return Err(refusal_of(operand, Reason::LengthOverLimit));
    }
    if !runs_fit(length, runs) {
        return Err(refusal_of(operand, Reason::RunsUnfit));
    }
    Ok(sum_runs(runs))
}

// All checks of one operand, in document 01's order, and its count.
pub fn check(operand: Which, form: Form, words: &[u64], rows: &[u32]) -> Result<u64, Refusal>
    ensures { result ≡ checked_of (Some operand) (lent form words.now rows.now) }
{
    match form {
        Form::All { length } => {
            check_length(operand, length)?;
            Ok(length)
        }
        Form::None { length } => {
            check_length(operand, length)?;
            Ok(0)
        }
        Form::Words {
            start,
            length,
            claimed,
        } => {
            check_words(operand, start, length, claimed, words)?;
            Ok(claimed)
        }
        Form::List { length } => {
            check_list(operand, length, rows)?;
            Ok(rows.len() as u64)
        }
        Form::Runs { length } => check_runs(operand, length, rows),
    }
}

// The same for a set operation's operand, which may be no list and no runs. Nobody asks for its count.
pub fn check_set(operand: Which, form: Form, words: &[u64], rows: &[u32]) -> Result<(), Refusal>
    ensures { result ≡ first (set_checks (Some operand) (lent form words.now rows.now)) }
{
    if counts_as_list(form) {
        return Err(refusal_of(operand, Reason::ListGiven));
    }
    check(operand, form, words, rows)?;
    Ok(())
}

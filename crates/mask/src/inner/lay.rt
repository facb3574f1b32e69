// An operand's rows over lent words, from any bit on or as whole words: chunk by chunk; of row numbers, one bit a row on zeros; of runs, run by run.
ghost use Rattle.std.specs.Prelude.{◌≡◌, false, [], ◌+◌, ◌*◌, ◌%◌, ◌≤◌, length};
ghost use Rattle.rows.specs.Lists.{listed, Ascending};
ghost use Rattle.rows.specs.Words.{view, Below};
ghost use Rattle.rows.specs.Laid.{words_for, written, laid, marked};
ghost use Rattle.rows.specs.Asks.{Room};
ghost use Rattle.rules.specs.Operand.{lent, rows_of, length_of, Accepted};
ghost use Rattle.operand.specs.Flat.{Flat, has_runs};

use fills::inner::lay::lay_runs;
use laid::inner::{clear, clear_last, copy_words, put, set_bit};
use lent::inner::chunk_len;
use operand::inner::chunks::chunk_of;
use operand::inner::forms::{has_row_numbers, has_runs, length_of};
use rules::Form;

// All, none or words: chunk by chunk.
fn lay_chunks(form: Form, words: &[u64], at: u64, out: &mut [u64])
    requires { Flat (lent form words.now []) × Room at (length_of form) out.old }
    ensures { out.new ≡ laid at (rows_of (lent form words.now [])) out.old }
{
    let len = length_of(form);
    for row in (0..len).step_by(64) {
        let n = chunk_len(len, row);
        put(out, at + row, n, chunk_of(form, words, row, n));
    }
}

// The first len bits of words over out from the first bit of a word on: whole words, and then what is left.
fn lay_words(words: &[u64], len: u64, at: u64, out: &mut [u64])
    requires { (at % 64 ≡ 0) × (len ≤ length words.now * 64) × Room at len out.old }
    ensures { out.new ≡ laid at (view 0 len words.now) out.old }
{
    let whole = (len / 64) as usize;
    let rest = len % 64;
    copy_words(words, (at / 64) as usize, whole, out);
    if rest == 0 {
        return;
    }
    put(out, at + (len - rest), rest, words[whole]);
}

// All, none or words. Words that stand as they will stand in out are copied, all else is laid chunk by chunk.
fn lay_flat(form: Form, words: &[u64], at: u64, out: &mut [u64])
    requires { Flat (lent form words.now []) × Room at (length_of form) out.old }
    ensures { out.new ≡ laid at (rows_of (lent form words.now [])) out.old }
{
    let Form::Words {
        start,
        length,
        claimed: _,
    } = form
    else {
        lay_chunks(form, words, at, out);
        return;
    };
    if start + at % 64 != 0 {
        lay_chunks(form, words, at, out);
        return;
    }
    lay_words(words, length, at, out);
}

// The bit of each listed row set, row 0 at bit at.
fn mark(rows: &[u32], len: u64, at: u64, out: &mut [u64])
    requires { Below len rows.now × Room at len out.old }
    ensures { out.new ≡ marked at rows.now out.old }
{
    for row in rows {
        set_bit(out, at + u64::from(*row));
    }
}

// A list: its part cleared, then its rows marked.
fn lay_list(len: u64, rows: &[u32], at: u64, out: &mut [u64])
    requires { Ascending 0 len rows.now × Room at len out.old }
    ensures { out.new ≡ laid at (listed len rows.now) out.old }
{
    clear(out, at, len);
    mark(rows, len, at, out);
}

// An operand that is no runs.
fn lay_other(form: Form, words: &[u64], rows: &[u32], at: u64, out: &mut [u64])
    requires { Accepted (lent form words.now rows.now) × Room at (length_of form) out.old × (has_runs form ≡ false) }
    ensures { out.new ≡ laid at (rows_of (lent form words.now rows.now)) out.old }
{
    if has_row_numbers(form) {
        lay_list(length_of(form), rows, at, out);
        return;
    }
    lay_flat(form, words, at, out);
}

// The operand's rows laid over out from bit at on.
pub fn lay_rows(form: Form, words: &[u64], rows: &[u32], at: u64, out: &mut [u64])
    requires { Accepted (lent form words.now rows.now) × Room at (length_of form) out.old }
    ensures { out.new ≡ laid at (rows_of (lent form words.now rows.now)) out.old }
{
    if has_runs(form) {
        lay_runs(rows, length_of(form), at, out);
        return;
    }
    lay_other(form, words, rows, at, out);
}

// The operand's rows as whole words from the start on.
pub fn write_rows(form: Form, words: &[u64], rows: &[u32], out: &mut [u64])
    requires { Accepted (lent form words.now rows.now) × (words_for (length_of form) ≤ length out.old) }
    ensures { out.new ≡ written (length_of form) (rows_of (lent form words.now rows.now)) out.old }
{
    clear_last(out, length_of(form));
    lay_rows(form, words, rows, 0, out);
}

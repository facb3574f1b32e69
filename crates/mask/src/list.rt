// An operand's set rows as a list.
ghost use Rattle.std.specs.Prelude.{◌≡◌, false, [], ◌++◌, ◌≤◌, length, drop};
ghost use Rattle.rows.specs.Rows.{count, splice};
ghost use Rattle.rows.specs.Lists.{set_rows};
ghost use Rattle.rules.specs.Operand.{lent, rows_of, count_of, Accepted};
ghost use Rattle.operand.specs.Flat.{Flat, has_runs};

use fills::inner::list::list_runs;
use operand::inner::chunks::chunk_of;
use operand::inner::forms::{has_row_numbers, has_runs, length_of};
use rules::Form;
use turns::inner::list_chunk;

// A loop, as `laid`'s copy of words is.
pub fn copy_list(rows: &[u32], out: &mut [u32])
    requires { length rows.now ≤ length out.old }
    ensures { out.new ≡ splice 0 out.old rows.now }
{
    for i in 0..rows.len() {
        out[i] = rows[i];
    }
}

// All, none or words: whole chunks, and then what is left.
fn list_flat(form: Form, words: &[u64], out: &mut [u32])
    requires { Flat (lent form words.now []) × (count (rows_of (lent form words.now [])) ≤ length out.old) }
    ensures { out.new ≡ splice 0 out.old (set_rows 0 (rows_of (lent form words.now []))) }
{
    let len = length_of(form);
    let mut k: usize = 0;
    for i in 0..len / 64 {
        let row = i * 64;
        k = list_chunk(chunk_of(form, words, row, 64), row as u32, k, out);
    }
    let rest = len % 64;
    if rest == 0 {
        return;
    }
    let row = len - rest;
    list_chunk(chunk_of(form, words, row, rest), row as u32, k, out);
}

// An operand that is no runs.
fn write_other(form: Form, words: &[u64], rows: &[u32], out: &mut [u32])
    requires { Accepted (lent form words.now rows.now) × (count_of (lent form [] rows.now) ≤ length out.old) × (has_runs form ≡ false) }
    ensures { out.new ≡ set_rows 0 (rows_of (lent form words.now rows.now)) ++ drop (count_of (lent form [] rows.now)) out.old }
{
    if has_row_numbers(form) {
        copy_list(rows, out);
        return;
    }
    list_flat(form, words, out);
}

// The set rows, ascending, over the front of out; later entries stay.
pub fn write_list(form: Form, words: &[u64], rows: &[u32], out: &mut [u32])
    requires { Accepted (lent form words.now rows.now) × (count_of (lent form [] rows.now) ≤ length out.old) }
    ensures { out.new ≡ set_rows 0 (rows_of (lent form words.now rows.now)) ++ drop (count_of (lent form [] rows.now)) out.old }
{
    if has_runs(form) {
        list_runs(rows, length_of(form), out);
        return;
    }
    write_other(form, words, rows, out);
}

// An operand's rows a chunk at a time, whatever its form is. Where they are numbers, a walk over these goes on from chunk to chunk.
ghost use Rattle.std.specs.Prelude.{◌≡◌, ◌+◌, ◌≤◌, take, drop};
ghost use Rattle.rows.specs.Word.{word_of};
ghost use Rattle.rows.specs.Asks.{Chunk};
ghost use Rattle.rules.specs.Operand.{lent, rows_of, length_of, Accepted};
ghost use Rattle.extracts.specs.Walk.{Came};

use books::inner::{Gathered, entry_bits, run_bits};
use operand::inner::chunks::chunk_of;
use operand::inner::forms::{has_row_numbers, has_runs};
use rows::Row;
use rules::Form;

// The n rows from a row on, and where the walk over the numbers has come to.
pub fn rows_in_chunk(
    form: Form,
    words: &[u64],
    numbers: &[u32],
    next: usize,
    row: Row,
    n: u64,
) -> Gathered
    requires { Accepted (lent form words.now numbers.now) × Chunk n × (row.0 + n ≤ length_of form) × Came (lent form words.now numbers.now) next row.0 }
    ensures { (result.bits ≡ word_of (take n (drop row.0 (rows_of (lent form words.now numbers.now)))))
        × Came (lent form words.now numbers.now) result.next (row.0 + n) }
{
    if has_row_numbers(form) {
        return entry_bits(numbers, next, row.0, n);
    }
    if has_runs(form) {
        return run_bits(numbers, next, row.0, n);
    }
    let bits = chunk_of(form, words, row.0, n);
    Gathered { bits, next }
}

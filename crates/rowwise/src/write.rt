// The work of an accepted set operation: what it writes, and counts.
ghost use Rattle.std.specs.Prelude.{◌≡◌, [], ◌+◌, ◌*◌, ◌≤◌, length};
ghost use Rattle.rows.specs.Rows.{count};
ghost use Rattle.rows.specs.Word.{both};
ghost use Rattle.rows.specs.Words.{view};
ghost use Rattle.rows.specs.Laid.{words_for, laid, written};
ghost use Rattle.rows.specs.Asks.{InView};
ghost use Rattle.rules.specs.Operand.{lent, length_of};
ghost use Rattle.rules.specs.SetOps.{combination, row_of};
ghost use Rattle.operand.specs.Flat.{Abreast};

use super::op::{And, AndNot, Not, Or, RowOperation, chunk};
use laid::inner::{clear_last, put};
use lent::inner::{chunk_len, whole_word};
use operand::inner::forms::length_of;
use rules::{Form, Operation};

// The first n words of the result of two operands in words, and how many of their rows are set.
fn write_whole<O: RowOperation>(
    awords: &[u64],
    astart: u64,
    bwords: &[u64],
    bstart: u64,
    n: usize,
    out: &mut [u64],
) -> u64
    requires { InView astart (n * 64) awords.now × InView bstart (n * 64) bwords.now × (n ≤ length out.old) }
    ensures { (result ≡ count (both O.on_rows (view astart (n * 64) awords.now) (view bstart (n * 64) bwords.now)))
        × (out.new ≡ laid 0 (both O.on_rows (view astart (n * 64) awords.now) (view bstart (n * 64) bwords.now)) out.old) }
{
    let mut count: u64 = 0;
    for i in 0..n {
        let x = whole_word(awords, astart, i);
        let y = whole_word(bwords, bstart, i);
        let bits = O::on_words(x, y);
        out[i] = bits;
        count += u64::count_ones(bits) as u64;
    }
    count
}

// The result's rows chunk by chunk, and how many of them are set.
fn write_chunks<O: RowOperation>(
    a: Form,
    awords: &[u64],
    b: Form,
    bwords: &[u64],
    out: &mut [u64],
) -> u64
    requires { Abreast (lent a awords.now []) (lent b bwords.now []) × (length_of a ≤ length out.old * 64) }
    ensures { (result ≡ count (combination O.on_rows (lent a awords.now []) (lent b bwords.now [])))
        × (out.new ≡ laid 0 (combination O.on_rows (lent a awords.now []) (lent b bwords.now [])) out.old) }
{
    let len = length_of(a);
    let mut sum: u64 = 0;
    for row in (0..len).step_by(64) {
        let n = chunk_len(len, row);
        let bits = chunk::<O>(a, awords, b, bwords, row, n);
        put(out, row, n, bits);
        sum += u64::count_ones(bits) as u64;
    }
    sum
}

// The result's rows over out from bit 0 on, and how many of them are set. Where both operands are in words, whole words are made without
// a look at the forms; what is left of them, and every other mix, goes chunk by chunk.
fn write_rows<O: RowOperation>(
    a: Form,
    awords: &[u64],
    b: Form,
    bwords: &[u64],
    out: &mut [u64],
) -> u64
    requires { Abreast (lent a awords.now []) (lent b bwords.now []) × (length_of a ≤ length out.old * 64) }
    ensures { (result ≡ count (combination O.on_rows (lent a awords.now []) (lent b bwords.now [])))
        × (out.new ≡ laid 0 (combination O.on_rows (lent a awords.now []) (lent b bwords.now [])) out.old) }
{
    let Form::Words {
        start: astart,
        length: len,
        claimed: _,
    } = a
    else {
        return write_chunks::<O>(a, awords, b, bwords, out);
    };
    let Form::Words {
        start: bstart,
        length: _,
        claimed: _,
    } = b
    else {
        return write_chunks::<O>(a, awords, b, bwords, out);
    };
    let sum = write_whole::<O>(awords, astart, bwords, bstart, (len / 64) as usize, out);
    let rest = len % 64;
    if rest == 0 {
        return sum;
    }
    let bits = chunk::<O>(a, awords, b, bwords, len - rest, rest);
    put(out, len - rest, rest, bits);
    sum + u64::count_ones(bits) as u64
}

// The result's rows as whole words from the start on, and how many of them are set.
fn write_all<O: RowOperation>(
    a: Form,
    awords: &[u64],
    b: Form,
    bwords: &[u64],
    out: &mut [u64],
) -> u64
    requires { Abreast (lent a awords.now []) (lent b bwords.now []) × (words_for (length_of a) ≤ length out.old) }
    ensures { (result ≡ count (combination O.on_rows (lent a awords.now []) (lent b bwords.now [])))
        × (out.new ≡ written (length_of a) (combination O.on_rows (lent a awords.now []) (lent b bwords.now [])) out.old) }
{
    let len = length_of(a);
    clear_last(out, len);
    write_rows::<O>(a, awords, b, bwords, out)
}

// The same, by the operation that is asked for: it is told here, once, and not again in the loops.
pub fn write(
    op: Operation,
    a: Form,
    awords: &[u64],
    b: Form,
    bwords: &[u64],
    out: &mut [u64],
) -> u64
    requires { Abreast (lent a awords.now []) (lent b bwords.now []) × (words_for (length_of a) ≤ length out.old) }
    ensures { (result ≡ count (combination (row_of op) (lent a awords.now []) (lent b bwords.now [])))
        × (out.new ≡ written (length_of a) (combination (row_of op) (lent a awords.now []) (lent b bwords.now [])) out.old) }
{
    match op {
        Operation::And => write_all::<And>(a, awords, b, bwords, out),
        Operation::Or => write_all::<Or>(a, awords, b, bwords, out),
        Operation::AndNot => write_all::<AndNot>(a, awords, b, bwords, out),
        Operation::Not => write_all::<Not>(a, awords, b, bwords, out),
    }
}

// What our own crates call to find the runs of rows, and to sum them. A run begins and ends at a row that differs from the row before it, and in a word those
// rows are the word against itself moved up by one, with the row before it carried in.
ghost use Rattle.std.specs.Prelude.{◌≡◌, [], ◌+◌, ◌-◌, ◌*◌, ◌/◌, ◌%◌, ◌≤◌, ◌<◌, min, length};
ghost use Rattle.rows.specs.Rows.{count, splice};
ghost use Rattle.rows.specs.Word.{is_one, bits_of, word_of};
ghost use Rattle.rows.specs.Words.{view};
ghost use Rattle.rows.specs.Lists.{listed, Ascending, set_rows};
ghost use Rattle.rows.specs.Runs.{Apart, run_lengths, turns, runs_of};
ghost use Rattle.rows.specs.Edges.{edges};
ghost use Rattle.rows.specs.Asks.{InView, Chunk};
ghost use Rattle.turns.specs.Gaps.{between};

use lent::inner::{chunk, chunk_len, ones};

// Which of a chunk's n rows differ from the row before them, the row before the first being carry.
fn edge_word(chunk: u64, carry: u64, n: u64) -> u64
    requires { Chunk n × (carry < 2) }
    ensures { result ≡ word_of (edges (is_one carry) (bits_of n chunk)) }
{
    (chunk ^ ((chunk << 1) | carry)) & ones(n)
}

// How many numbers the runs of a view are. A run that goes on to the view's end has its end there: that is the last row, carried out.
pub fn count_turns(words: &[u64], start: u64, len: u64) -> u64
    requires { InView start len words.now }
    ensures { result ≡ length (runs_of (view start len words.now)) }
{
    let mut sum: u64 = 0;
    let mut carry: u64 = 0;
    for row in (0..len).step_by(64) {
        let n = chunk_len(len, row);
        let here = chunk(words, start, row, n);
        sum += edge_word(here, carry, n).count_ones() as u64;
        carry = here >> (n - 1);
    }
    sum + carry
}

// The set bits of a chunk whose first row is base, from entry k of out on; the entry after them.
pub fn list_chunk(chunk: u64, base: u32, k: usize, out: &mut [u32]) -> usize
    requires { (base ≤ 1048576) × (k + count (bits_of 64 chunk) ≤ length out.old) }
    ensures { (result ≡ k + count (bits_of 64 chunk)) × (out.new ≡ splice k out.old (set_rows base (bits_of 64 chunk))) }
{
    // A turn clears the lowest set bit, and p is the entry that it writes: no range has the rows.
    let mut rest = chunk;
    let mut p = k;
    while rest != 0 {
        out[p] = base + u64::trailing_zeros(rest);
        rest = rest & (rest - 1);
        p += 1;
    }
    p
}

// The end of a run that goes on to the last row, at entry k of out.
fn write_end(carry: u64, past: u32, k: usize, out: &mut [u32])
    requires { k + length (turns (is_one carry) past []) ≤ length out.old }
    ensures { out.new ≡ splice k out.old (turns (is_one carry) past []) }
{
    if carry == 0 {
        return;
    }
    out[k] = past;
}

// The runs of a view, over the front of out; later entries stay.
pub fn write_turns(words: &[u64], start: u64, len: u64, out: &mut [u32])
    requires { InView start len words.now × (length (runs_of (view start len words.now)) ≤ length out.old) }
    ensures { out.new ≡ splice 0 out.old (runs_of (view start len words.now)) }
{
    let mut k: usize = 0;
    let mut carry: u64 = 0;
    for row in (0..len).step_by(64) {
        let n = chunk_len(len, row);
        let here = chunk(words, start, row, n);
        let found = edge_word(here, carry, n);
        k = list_chunk(found, row as u32, k, out);
        carry = here >> (n - 1);
    }
    write_end(carry, len as u32, k, out);
}

// How many numbers stand between an entry of a list, past being the row after it, and the next: an end and a beginning, or none.
fn gap(past: u32, row: u32) -> u64
    ensures { result ≡ length (between past row) }
{
    if row == past {
        return 0;
    }
    2
}

// How many numbers the runs of a list of row numbers are.
pub fn count_list_turns(rows: &[u32], len: u64) -> u64
    requires { (len ≤ 1048576) × Ascending 0 len rows.now }
    ensures { result ≡ length (runs_of (listed len rows.now)) }
{
    let [first, rest @ ..] = rows else {
        return 0;
    };
    let mut past = *first + 1;
    let mut sum: u64 = 1;
    for row in rest {
        sum += gap(past, *row);
        past = *row + 1;
    }
    sum + 1
}

// What stands between an entry and the next, from entry k of out on; the entry after it.
fn write_gap(past: u32, row: u32, k: usize, out: &mut [u32]) -> usize
    requires { k + length (between past row) ≤ length out.old }
    ensures { (result ≡ k + length (between past row)) × (out.new ≡ splice k out.old (between past row)) }
{
    if row == past {
        return k;
    }
    out[k] = past;
    out[k + 1] = row;
    k + 2
}

// The runs of a list of row numbers, over the front of out; later entries stay.
pub fn write_list_turns(rows: &[u32], len: u64, out: &mut [u32])
    requires { (len ≤ 1048576) × Ascending 0 len rows.now × (length (runs_of (listed len rows.now)) ≤ length out.old) }
    ensures { out.new ≡ splice 0 out.old (runs_of (listed len rows.now)) }
{
    let [first, rest @ ..] = rows else {
        return;
    };
    out[0] = *first;
    let mut past = *first + 1;
    let mut k: usize = 1;
    for row in rest {
        k = write_gap(past, *row, k, out);
        past = *row + 1;
    }
    out[k] = past;
}

// A run's two numbers as one: so a sum of runs is a sum of words that lie side by side, and no number has to be parted from its pair.
fn packed(first: u32, past: u32) -> u64
    ensures { result ≡ first + past * 4294967296 }
{
    let low = first as u64;
    let high = past as u64;
    low + (high << 32)
}

// What the pasts of packed runs, summed, exceed the firsts by.
fn excess(sum: u64) -> u64
    requires { sum % 4294967296 ≤ sum / 4294967296 }
    ensures { result ≡ sum / 4294967296 - sum % 4294967296 }
{
    sum / 4294967296 - sum % 4294967296
}

// How many rows a block of runs has, by halves: with two sums at once neither has to wait for itself. No number is above 1,048,576, so 32 bits hold
// the firsts of 2,048 runs, or their pasts, summed.
fn sum_block(runs: &[u32]) -> u64
    requires { (length runs.now % 4 ≡ 0) × (length runs.now ≤ 8192) × Apart 0 1048576 runs.now }
    ensures { result ≡ run_lengths runs.now }
{
    let half = runs.len() / 2;
    let mut one: u64 = 0;
    let mut other: u64 = 0;
    for i in (0..half).step_by(2) {
        one += packed(runs[i], runs[i + 1]);
        other += packed(runs[half + i], runs[half + i + 1]);
    }
    excess(one) + excess(other)
}

// How many rows runs of a mask have: block by block, as far as the runs go in pairs, and then the last.
pub fn sum_runs(runs: &[u32]) -> u64
    requires { Apart 0 1048576 runs.now }
    ensures { result ≡ run_lengths runs.now }
{
    let (blocks, last) = runs.split_at(runs.len() / 4 * 4);
    let mut sum: u64 = 0;
    for block in blocks.chunks(8192) {
        sum += sum_block(block);
    }
    let [first, past] = last else {
        return sum;
    };
    sum + (*past - *first) as u64
}

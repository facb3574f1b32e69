// What our own crates call to write lent words: bits laid from any bit on, each write told in words. None changes a bit that it was not
// asked to lay.
ghost use Rattle.std.specs.Prelude.{◌≡◌, true, false, [], ◌∷◌, ℕ, ◌+◌, ◌-◌, ◌*◌, ◌^◌, ◌≤◌, ◌<◌, length, take, replicate};
ghost use Rattle.rows.specs.Rows.{count, splice};
ghost use Rattle.rows.specs.Word.{bits_of};
ghost use Rattle.rows.specs.Words.{Below, view};
ghost use Rattle.rows.specs.Laid.{words_for, laid, last_cleared};
ghost use Rattle.rows.specs.Asks.{Room, Chunk};

use lent::inner::{chunk_len, ones, read};

// The low n bits of bits over out, from bit at on: in one word, or in two.
pub fn put(out: &mut [u64], at: u64, n: u64, bits: u64)
    requires { Chunk n × (at + n ≤ length out.old * 64) }
    ensures { out.new ≡ laid at (bits_of n bits) out.old }
{
    let i = (at / 64) as usize;
    let shift = at % 64;
    let mask = ones(n);
    let low = bits & mask;
    out[i] = (out[i] & !(mask << shift)) | (low << shift);
    if shift + n > 64 {
        let past = 64 - shift;
        out[i + 1] = (out[i + 1] & !(mask >> past)) | (low >> past);
    }
}

// A word of one bit: its low bits, however many.
fn same_word(set: bool) -> u64
    ensures { (n : ℕ) → n ≤ 64 → bits_of n result ≡ replicate n set }
{
    if set {
        return u64::MAX;
    }
    0
}

// The same bit over out, never or up to 64 times, from bit at on.
fn lay_some(out: &mut [u64], at: u64, n: u64, set: bool)
    requires { (n ≤ 64) × (at + n ≤ length out.old * 64) }
    ensures { out.new ≡ laid at (replicate n set) out.old }
{
    if n == 0 {
        return;
    }
    put(out, at, n, same_word(set));
}

// Each of the words is this one. Not by `fill`, which stores the last word apart: with it, to lay runs took 6 to 13% longer.
fn store(words: &mut [u64], word: u64)
    ensures { words.new ≡ replicate (length words.old) word }
{
    for stored in words.iter_mut() {
        *stored = word;
    }
}

// The words from first to end with every bit set. Four to eight are stored here, the first four and the last four, which may overlap: a run's
// inside is often so short that the call which fills memory costs more than the stores.
fn fill_words(out: &mut [u64], first: usize, end: usize)
    requires { (first ≤ end) × (end ≤ length out.old) × Below (2 ^ 64) out.old }
    ensures { out.new ≡ laid (first * 64) (replicate ((end - first) * 64) true) out.old }
{
    let n = end - first;
    if n < 4 || n > 8 {
        store(&mut out[first..end], u64::MAX);
        return;
    }
    store(&mut out[first..first + 4], u64::MAX);
    store(&mut out[end - 4..end], u64::MAX);
}

// The words from first to end, of one bit. What is stored is written out for each bit, for only then it is made a fill of memory.
fn same_words(out: &mut [u64], first: usize, end: usize, set: bool)
    requires { (first ≤ end) × (end ≤ length out.old) × Below (2 ^ 64) out.old }
    ensures { out.new ≡ laid (first * 64) (replicate ((end - first) * 64) set) out.old }
{
    if set {
        fill_words(out, first, end);
        return;
    }
    store(&mut out[first..end], 0);
}

// The same bit over out, n times, from bit at on: in one word; or to the end of the first, then whole words, then what is left.
pub fn lay_same(out: &mut [u64], at: u64, n: u64, set: bool)
    requires { Room at n out.old }
    ensures { out.new ≡ laid at (replicate n set) out.old }
{
    let shift = at % 64;
    if shift + n <= 64 {
        lay_some(out, at, n, set);
        return;
    }
    let end = at + n;
    let last = end % 64;
    lay_some(out, at, 64 - shift, set);
    same_words(out, (at / 64 + 1) as usize, (end / 64) as usize, set);
    lay_some(out, end - last, last, set);
}

// Zeros over out, n of them, from bit at on.
pub fn clear(out: &mut [u64], at: u64, n: u64)
    requires { Room at n out.old }
    ensures { out.new ≡ laid at (replicate n false) out.old }
{
    lay_same(out, at, n, false);
}

// Ones over out, n of them, from bit at on.
pub fn fill(out: &mut [u64], at: u64, n: u64)
    requires { Room at n out.old }
    ensures { out.new ≡ laid at (replicate n true) out.old }
{
    lay_same(out, at, n, true);
}

// One bit set.
pub fn set_bit(out: &mut [u64], at: u64)
    requires { at < length out.old * 64 }
    ensures { out.new ≡ laid at (true ∷ []) out.old }
{
    put(out, at, 1, 1);
}

// The last word that so many bits need is 0.
pub fn clear_last(out: &mut [u64], bits: u64)
    requires { words_for bits ≤ length out.old }
    ensures { out.new ≡ last_cleared bits out.old }
{
    if bits == 0 {
        return;
    }
    let last = ((bits - 1) / 64) as usize;
    out[last] = 0;
}

// The first n words over out from word first on: a loop of one read and one store, which is made of vectors. `copy_from_slice` would have the C
// archives ask for memmove.
pub fn copy_words(words: &[u64], first: usize, n: usize, out: &mut [u64])
    requires { (n ≤ length words.now) × (first + n ≤ length out.old) }
    ensures { out.new ≡ splice first out.old (take n words.now) }
{
    for i in 0..n {
        out[first + i] = words[i];
    }
}

// The n bits of words from bit from on, over out from bit at on; and how many of them are set. The place is one sum, so that the read has nothing
// else to add.
pub fn copy_bits(words: &[u64], from: u64, n: u64, at: u64, out: &mut [u64]) -> u64
    requires { (from + n ≤ length words.now * 64) × (from + n < 2 ^ 64) × Room at n out.old }
    ensures { (result ≡ count (view from n words.now)) × (out.new ≡ laid at (view from n words.now) out.old) }
{
    let mut sum: u64 = 0;
    for done in (0..n).step_by(64) {
        let some = chunk_len(n, done);
        let bits = read(words, from + done, 0);
        put(out, at + done, some, bits);
        sum += u64::count_ones(bits & ones(some)) as u64;
    }
    sum
}

// The text of an input: its masks as words, their composition, and the four lines of the answer.
ghost use Rattle.std.specs.Prelude.{◌≡◌, ◌+◌, ◌*◌, ◌≤◌, length, take, drop};
ghost use Rattle.rows.specs.Rows.{count, splice};
ghost use Rattle.rows.specs.Words.{view};
ghost use Rattle.rows.specs.Laid.{words_for, written};
ghost use Rattle.lines.specs.Text.{rows_in, answer_for, text_of, with_text};
ghost use Rattle.lines.specs.Parts.{answer_words, told_words, counted, found_in};

use super::find::find;
use super::put::put_answer;
use intersect_by_rank::intersect_by_rank;
use laid::inner::{clear_last, put};
use lent::inner::{count_view, words_for};
use lines::{Masks, Written};
use rows::Reason;
use rows::inner::verdicts::refusal;
use rules::Form;

// The n digits from index at on as words, row 0 in bit 0.
fn pack(input: &[u8], at: usize, n: usize, words: &mut [u64])
    requires { (at ≤ length input.now) × (n ≡ length (rows_in (drop at input.now))) × (words_for n ≤ length words.old) }
    ensures { words.new ≡ written n (rows_in (drop at input.now)) words.old }
{
    clear_last(words, n as u64);
    for i in 0..n {
        let digit = input[at + i] - b'0';
        put(words, i as u64, 1, u64::from(digit));
    }
}

// The first n bits of words as an operand, its count counted.
fn operand(words: &[u64], n: usize) -> Form
    requires { (n ≤ 8192) × (n ≤ length words.now * 64) }
    ensures { result ≡ Form.Words 0 n (count (view 0 n words.now)) }
{
    let length = n as u64;
    Form::Words {
        start: 0,
        length,
        claimed: count_view(words, 0, length),
    }
}

// The composition of s rows in words by r rows in words, told.
fn tell_words(
    swords: &[u64],
    s: usize,
    rwords: &[u64],
    r: usize,
    words: &mut [u64],
    out: &mut [u8],
) -> Written
    requires { (s ≤ 8192) × (s ≤ length swords.now * 64) × (r ≤ 8192) × (r ≤ length rwords.now * 64) × (words_for s ≤ length words.old) × (8281 ≤ length out.old) }
    ensures { (result ≡ with_text (answer_words swords.now s rwords.now r words.old) (told_words swords.now s rwords.now r words.old))
        × (out.new ≡ splice 0 out.old (told_words swords.now s rwords.now r words.old))
        × (result.len ≤ 8281) }
{
    // words ignore the rows that are lent beside them
    let none = [0u32; 1];
    let a = intersect_by_rank(
        operand(swords, s),
        swords,
        &none,
        operand(rwords, r),
        rwords,
        &none,
        words,
    );
    put_answer(a, words, s, out)
}

// The composition of the two masks that were found, told.
fn tell_masks(input: &[u8], s: usize, r: usize, out: &mut [u8]) -> Written
    requires { (found_in input.now ≡ Some (counted s r)) × (8281 ≤ length out.old) }
    ensures { (result ≡ with_text (answer_for input.now) (text_of input.now))
        × (out.new ≡ splice 0 out.old (text_of input.now))
        × (result.len ≤ 8281) }
{
    let mut swords = [0u64; 128];
    let mut rwords = [0u64; 128];
    let mut words = [0u64; 128];
    pack(input, 5, s, &mut swords);
    pack(input, 11 + s, r, &mut rwords);
    // what is lent has as many words as there are rows to hold
    let sk = words_for(s as u64) as usize;
    let rk = words_for(r as u64) as usize;
    tell_words(&swords[..sk], s, &rwords[..rk], r, &mut words[..sk], out)
}

// The text, from the start of out on.
pub fn tell(input: &[u8], out: &mut [u8]) -> Written
    requires { 8281 ≤ length out.old }
    ensures { (result ≡ with_text (answer_for input.now) (text_of input.now)) × (take result.len out.new ≡ text_of input.now) × (result.len ≤ 8281) }
{
    match find(input) {
        None => {
            let none = [0u64; 1];
            put_answer(Err(refusal(Reason::Malformed)), &none, 0, out)
        }
        Some(Masks { s, r }) => tell_masks(input, s, r, out),
    }
}

// Parts of a text, each put into lent bytes from an index on; each tells the index after it. No `write!`: std has no clause on which bytes
// that leaves in a slice that is lent.
ghost use Rattle.std.specs.Prelude.{◌≡◌, ◌+◌, ◌*◌, ◌≤◌, length};
ghost use Rattle.std.proofs.Math.Decide.{ℕ_discrete};
ghost use Rattle.rows.specs.Rows.{splice};
ghost use Rattle.rows.specs.Words.{view};
ghost use Rattle.rows.specs.Table.{choose};
ghost use Rattle.lines.specs.Text.{digits, line, bits_key, decimal, lines, lines_of, with_text};

use lines::Written;
use operand::inner::answers::summary_told;
use routes::inner::route_number;
use rows::Refusal;
use rows::inner::numbers::number;
use rules::Summary;

// All of bytes.
pub fn put_bytes(bytes: &[u8], at: usize, out: &mut [u8]) -> usize
    requires { at + length bytes.now ≤ length out.old }
    ensures { (result ≡ at + length bytes.now) × (out.new ≡ splice at out.old bytes.now) }
{
    let end = at + bytes.len();
    out[at..end].copy_from_slice(bytes);
    end
}

// A number in decimal, which has at most 20 digits.
fn put_decimal(n: u64, at: usize, out: &mut [u8]) -> usize
    requires { at + 20 ≤ length out.old }
    ensures { (result ≡ at + length (decimal n)) × (out.new ≡ splice at out.old (decimal n)) × (result ≤ at + 20) }
{
    let mut text = [0u8; 20];
    let k = io::decimal(n, &mut text);
    put_bytes(&text[..k], at, out)
}

// A line with a number.
fn put_line(key: &[u8], n: u64, at: usize, out: &mut [u8]) -> usize
    requires { at + length key.now + 21 ≤ length out.old }
    ensures { (result ≡ at + length (line key.now (decimal n)))
        × (out.new ≡ splice at out.old (line key.now (decimal n)))
        × (result ≤ at + length key.now + 21) }
{
    let value = put_bytes(key, at, out);
    let end = put_decimal(n, value, out);
    put_bytes(b"\n", end, out)
}

// The first n bits of words as digits.
fn put_digits(words: &[u64], n: usize, at: usize, out: &mut [u8]) -> usize
    requires { (n ≤ length words.now * 64) × (at + n ≤ length out.old) }
    ensures { (result ≡ at + n) × (out.new ≡ splice at out.old (digits (view 0 n words.now))) }
{
    for i in 0..n {
        let bit = lent::inner::chunk(words, 0, i as u64, 1);
        out[at + i] = b'0' + bit as u8;
    }
    at + n
}

// A line with the first n bits of words.
fn put_bits(words: &[u64], n: usize, at: usize, out: &mut [u8]) -> usize
    requires { (n ≤ length words.now * 64) × (at + n + 6 ≤ length out.old) }
    ensures { (result ≡ at + length (line bits_key (digits (view 0 n words.now))))
        × (out.new ≡ splice at out.old (line bits_key (digits (view 0 n words.now)))) }
{
    let value = put_bytes(b"bits=", at, out);
    let end = put_digits(words, n, value, out);
    put_bytes(b"\n", end, out)
}

// The four lines, with the first n bits of words. Each number is given room for 20 digits.
fn put_lines(refusal: u8, route: u8, count: u64, words: &[u64], n: usize, out: &mut [u8]) -> usize
    requires { (n ≤ length words.now * 64) × (n + 89 ≤ length out.old) }
    ensures { (result ≡ length (lines refusal route count (view 0 n words.now)))
        × (out.new ≡ splice 0 out.old (lines refusal route count (view 0 n words.now)))
        × (result ≤ n + 89) }
{
    let first = put_line(b"refusal=", refusal as u64, 0, out);
    let second = put_line(b"route=", route as u64, first, out);
    let third = put_line(b"count=", count, second, out);
    put_bits(words, n, third, out)
}

// The lines of an answer, whose rows are the first n bits of words. A refusal shows no rows.
pub fn put_answer(
    answer: Result<Summary, Refusal>,
    words: &[u64],
    n: usize,
    out: &mut [u8],
) -> Written
    requires { (n ≤ length words.now * 64) × (n + 89 ≤ length out.old) }
    ensures { (result ≡ with_text answer (lines_of answer (view 0 n words.now)))
        × (out.new ≡ splice 0 out.old (lines_of answer (view 0 n words.now)))
        × (result.len ≤ n + 89) }
{
    let summary = summary_told(answer);
    let route = route_number(summary.route);
    let len = match answer {
        Ok(_) => put_lines(0, route, summary.count, words, n, out),
        Err(refusal) => put_lines(number(refusal.reason), route, summary.count, words, 0, out),
    };
    Written { answer, len }
}

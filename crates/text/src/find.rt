// The two masks of an input: where their digits lie, or that it is malformed.
ghost use Rattle.std.specs.Prelude.{◌≡◌, ◌+◌, ◌≤◌, length, drop};
ghost use Rattle.lines.specs.Text.{is_digit, rows_in};
ghost use Rattle.lines.specs.Parts.{begins, found_in};

use lines::Masks;

// The key stands at index at.
fn has_key(input: &[u8], at: usize, key: &[u8]) -> bool
    requires { at ≤ length input.now }
    ensures { result ≡ begins key.now (drop at input.now) }
{
    input[at..].starts_with(key)
}

fn is_digit(byte: u8) -> bool
    ensures { result ≡ is_digit byte }
{
    matches!(byte, b'0' | b'1')
}

// How many digits stand from index at on, up to the first byte that is none.
fn count_digits(input: &[u8], at: usize) -> usize
    requires { at ≤ length input.now }
    ensures { result ≡ length (rows_in (drop at input.now)) }
{
    input[at..]
        .iter()
        .take_while(|byte| is_digit(**byte))
        .count()
}

// The two lines, of at most 8,192 digits each, and then the end.
pub fn find(input: &[u8]) -> Option<Masks>
    ensures { result ≡ found_in input.now }
{
    if !has_key(input, 0, b"self=") {
        return None;
    }
    let s = count_digits(input, 5);
    if s > 8192 {
        return None;
    }
    if !has_key(input, 5 + s, b"\nrank=") {
        return None;
    }
    let r = count_digits(input, 11 + s);
    if r > 8192 {
        return None;
    }
    if !has_key(input, 11 + s + r, b"\n") {
        return None;
    }
    if input.len() != 12 + s + r {
        return None;
    }
    Some(Masks { s, r })
}

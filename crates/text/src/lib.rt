// Document 01's text: two masks read as lines of digits, the answer to their composition as four lines.
#![tactic(auto)]

ghost use Rattle.std.specs.Prelude.{◌≡◌, length};
ghost use Rattle.lines.specs.Text.{written_for, text_out};

use lines::Written;
use rows::Reason;
use rows::inner::verdicts::refusal;

mod find;
mod put;
mod tell;

// The text for any input, from the start of out on; later bytes as they were.
pub fn answer(input: &[u8], out: &mut [u8]) -> Written
    ensures { (result ≡ written_for input.now (length out.old)) × (out.new ≡ text_out input.now out.old) }
{
    // three numbers of 20 digits and 8,192 bits would be 8,281 bytes, more than there ever are
    let mut text = [0u8; 8281];
    let told = tell::tell(input, &mut text);
    let len = told.len;
    if out.len() < len {
        return Written {
            answer: Err(refusal(Reason::NoRoom)),
            len: 0,
        };
    }
    put::put_bytes(&text[..len], 0, out);
    told
}

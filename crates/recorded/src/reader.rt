// Reads recorded cases: a text of hex numbers with blanks between them. Nothing here traps: what is malformed is an error.
pub mod operands;
pub mod slices;

// The text is not told as README.md says.
#[derive(Clone, Copy)]
pub struct Malformed;

// What is left of a text.
#[derive(Drop)]
pub struct Reader<'a> {
    rest: &'a [u8],
    // What was read is malformed, and nothing after it is a number. A flag beside the errors, since a malformed case without feeds agrees,
    // and the first later case that has any is told in its place: what the program prints on such a file may not change.
    is_spoilt: bool,
}

impl<'a> Reader<'a> {
    pub fn new(text: &'a [u8]) -> Reader<'a> {
        Reader {
            rest: text,
            is_spoilt: false,
        }
    }

    // The next digits modulo 2^64, also where they are no number: one has one to sixteen digits, in lower case, and a blank or the text's
    // end after it. The reader stands after the digits.
    pub fn digits(&mut self) -> u64 {
        let blanks = self.rest.iter().take_while(|byte| is_blank(**byte)).count();
        let text = &self.rest[blanks..];
        let len = text.iter().map_while(|byte| digit(*byte)).count();
        let value = text
            .iter()
            .map_while(|byte| digit(*byte))
            .fold(0, |value, digit| (value << 4) | digit);
        let rest = &text[len..];
        let is_number = matches!(len, 1..=16) && rest.first().is_none_or(|byte| is_blank(*byte));
        self.is_spoilt |= !is_number;
        self.rest = rest;
        value
    }

    // The next number.
    pub fn number(&mut self) -> Result<u64, Malformed> {
        let value = self.digits();
        if self.is_spoilt {
            return Err(Malformed);
        }
        Ok(value)
    }

    // What was read has no room where it belongs.
    pub fn spoil(&mut self) -> Malformed {
        self.is_spoilt = true;
        Malformed
    }

    // Nothing was malformed, and nothing but blanks is left.
    pub fn at_end(&self) -> bool {
        !self.is_spoilt && self.rest.iter().all(|byte| is_blank(*byte))
    }
}

fn is_blank(byte: u8) -> bool {
    matches!(byte, b' ' | b'\n')
}

fn digit(byte: u8) -> Option<u64> {
    match byte {
        b'0'..=b'9' => Some(u64::from(byte - b'0')),
        b'a'..=b'f' => Some(u64::from(byte - b'a') + 10),
        _ => None,
    }
}

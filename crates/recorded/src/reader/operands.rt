// An operand, told as its form, its words and its list.
use super::slices::fill;
use super::{Malformed, Reader};
use rules::Form;

// How many words of an operand there is room for.
pub const WORDS: usize = 16386;

// How many entries of a list there is room for.
pub const ENTRIES: usize = 4100;

// How many words of an output there is room for.
pub const OUTPUT: usize = 16388;

// A form, and the words and the list that are lent beside it.
#[derive(Clone, Copy)]
pub struct Operand<'a> {
    pub form: Form,
    pub words: &'a [u64],
    pub rows: &'a [u32],
}

// A form is told as its kind, length, start and claimed count. The kinds are all, none, words, list and runs, from 0 on.
fn read_form(reader: &mut Reader<'_>) -> Result<Form, Malformed> {
    let kind = reader.number()?;
    let length = reader.number()?;
    let start = reader.number()?;
    let claimed = reader.number()?;
    match kind {
        0 => Ok(Form::All { length }),
        1 => Ok(Form::None { length }),
        2 => Ok(Form::Words {
            start,
            length,
            claimed,
        }),
        3 => Ok(Form::List { length }),
        4 => Ok(Form::Runs { length }),
        _ => Err(Malformed),
    }
}

pub fn read_operand<'a>(
    reader: &mut Reader<'_>,
    words: &'a mut [u64],
    rows: &'a mut [u32],
) -> Result<Operand<'a>, Malformed> {
    let form = read_form(reader)?;
    let words = fill(reader, words)?;
    let rows = fill(reader, rows)?;
    Ok(Operand { form, words, rows })
}

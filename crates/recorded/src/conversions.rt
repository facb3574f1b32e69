// A case of the conversions: scripts/conversions.py says how it is told.
use super::answer::{Expected, Finding, hold};
use super::reader::operands::{ENTRIES, OUTPUT, Operand, WORDS, read_operand};
use super::reader::slices::{Element, compare, fill};
use super::reader::{Malformed, Reader};
use rows::Refusal;
use rules::Summary;

#[derive(Clone, Copy)]
enum Conversion {
    ToWords,
    ToList,
    ToRuns,
}

fn read_conversion(reader: &mut Reader<'_>) -> Result<Conversion, Malformed> {
    match reader.number()? {
        1 => Ok(Conversion::ToWords),
        2 => Ok(Conversion::ToList),
        3 => Ok(Conversion::ToRuns),
        _ => Err(Malformed),
    }
}

// A conversion over an output slice that holds what it is to hold before.
fn hold_conversion<T: Element, F: FnOnce(&mut [T]) -> Result<Summary, Refusal>>(
    reader: &mut Reader<'_>,
    room: &mut [T],
    convert: F,
) -> Result<(), Finding>
    requires { F.IsAlwaysCallable convert }
{
    let out = fill(reader, room)?;
    let answer = convert(out);
    let expected = Expected::read(reader)?;
    let same = compare(reader, out)?;
    expected.hold(answer)?;
    hold(same, Finding::OutputDiffers)
}

// The same of the conversion to runs, whose number stands after the answer's numbers.
fn hold_runs(reader: &mut Reader<'_>, given: Operand<'_>) -> Result<(), Finding> {
    let mut room = [0u32; ENTRIES];
    let out = fill(reader, &mut room)?;
    let written = mask::to_runs(given.form, given.words, given.rows, out);
    let expected = Expected::read(reader)?;
    let due = reader.number()?;
    let same = compare(reader, out)?;
    expected.hold(written.map(|written| written.summary))?;
    let runs = written.map_or(0, |written| written.runs);
    hold(runs == due, Finding::RunsDiffers)?;
    hold(same, Finding::OutputDiffers)
}

// Room for words is cleared for the cases alone that need it: so in a function of its own, which stays apart.
#[inline(never)]
fn hold_words(reader: &mut Reader<'_>, given: Operand<'_>) -> Result<(), Finding> {
    let mut room = [0u64; OUTPUT];
    hold_conversion(reader, &mut room, |out| {
        mask::to_words(given.form, given.words, given.rows, out)
    })
}

pub fn run_case(reader: &mut Reader<'_>) -> Result<(), Finding> {
    let mut words = [0u64; WORDS];
    let mut rows = [0u32; ENTRIES];
    let conversion = read_conversion(reader)?;
    let given = read_operand(reader, &mut words, &mut rows)?;
    match conversion {
        Conversion::ToWords => hold_words(reader, given),
        Conversion::ToList => hold_conversion(reader, &mut [0u32; ENTRIES], |out| {
            mask::to_list(given.form, given.words, given.rows, out)
        }),
        Conversion::ToRuns => hold_runs(reader, given),
    }
}

// A case of the set operations, of composition or of recovery: scripts/pairs.py and scripts/recoveries.py say how it is told.
use super::answer::{Expected, Finding, hold, read_row, row_told};
use super::reader::operands::{ENTRIES, OUTPUT, Operand, WORDS, read_operand};
use super::reader::slices::{compare, fill};
use super::reader::{Malformed, Reader};
use bitops::{and, and_not, not, or};
use intersect_by_rank::intersect_by_rank;
use recover::recover;
use rows::Refusal;
use rules::Summary;

#[derive(Clone, Copy)]
enum Operation {
    And,
    Or,
    AndNot,
    Not,
    Composition,
    Recovery,
}

fn read_operation(reader: &mut Reader<'_>) -> Result<Operation, Malformed> {
    match reader.number()? {
        1 => Ok(Operation::And),
        2 => Ok(Operation::Or),
        3 => Ok(Operation::AndNot),
        4 => Ok(Operation::Not),
        5 => Ok(Operation::Composition),
        6 => Ok(Operation::Recovery),
        _ => Err(Malformed),
    }
}

fn operate(
    operation: Operation,
    a: Operand<'_>,
    b: Operand<'_>,
    out: &mut [u64],
) -> Result<Summary, Refusal> {
    match operation {
        Operation::And => and(a.form, a.words, a.rows, b.form, b.words, b.rows, out),
        Operation::Or => or(a.form, a.words, a.rows, b.form, b.words, b.rows, out),
        Operation::AndNot => and_not(a.form, a.words, a.rows, b.form, b.words, b.rows, out),
        Operation::Not => not(a.form, a.words, a.rows, out),
        Operation::Composition => intersect_by_rank(
            a.form, a.words, a.rows, b.form, b.words, b.rows, out,
        ),
        Operation::Recovery => recover(a.form, a.words, a.rows, b.form, b.words, b.rows, out),
    }
}

// The operation over an output slice that holds what it is to hold before.
fn run_operation(
    reader: &mut Reader<'_>,
    operation: Operation,
    a: Operand<'_>,
    b: Operand<'_>,
) -> Result<(), Finding> {
    let mut room = [0u64; OUTPUT];
    let out = fill(reader, &mut room)?;
    let answer = operate(operation, a, b, out);
    let expected = Expected::read(reader)?;
    let row = read_row(reader, matches!(operation, Operation::Recovery))?;
    let same = compare(reader, out)?;
    expected.hold(answer)?;
    hold(row_told(answer) == row, Finding::RowDiffers)?;
    hold(same, Finding::OutputDiffers)
}

pub fn run_case(reader: &mut Reader<'_>) -> Result<(), Finding> {
    let mut awords = [0u64; WORDS];
    let mut arows = [0u32; ENTRIES];
    let mut bwords = [0u64; WORDS];
    let mut brows = [0u32; ENTRIES];
    let operation = read_operation(reader)?;
    let a = read_operand(reader, &mut awords, &mut arows)?;
    let b = read_operand(reader, &mut bwords, &mut brows)?;
    run_operation(reader, operation, a, b)
}

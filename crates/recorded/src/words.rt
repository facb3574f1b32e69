// A case of the word layer or of rank read: README.md says how it is told.
use super::answer::{Finding, hold, hold_refusal};
use super::reader::operands::WORDS;
use super::reader::slices::fill;
use super::reader::{Malformed, Reader};
use rows::Refusal;

#[derive(Clone, Copy)]
enum Operation {
    Deposit,
    DepositByLoop,
    Select,
    RankRead,
}

// What is told of a case before its lent words: the operation, and three numbers whose meaning it gives.
#[derive(Clone, Copy)]
struct Call {
    operation: Operation,
    x: u64,
    y: u64,
    z: u64,
}

fn read_operation(reader: &mut Reader<'_>) -> Result<Operation, Malformed> {
    match reader.number()? {
        1 => Ok(Operation::Deposit),
        2 => Ok(Operation::DepositByLoop),
        3 => Ok(Operation::Select),
        4 => Ok(Operation::RankRead),
        _ => Err(Malformed),
    }
}

fn read_call(reader: &mut Reader<'_>) -> Result<Call, Malformed> {
    Ok(Call {
        operation: read_operation(reader)?,
        x: reader.number()?,
        y: reader.number()?,
        z: reader.number()?,
    })
}

// The word, or for select the position.
fn operate(call: Call, words: &[u64]) -> Result<u64, Refusal> {
    let Call { operation, x, y, z } = call;
    match operation {
        Operation::Deposit => word::deposit(x, y, z),
        // the loop form is no entry point: it takes the mask's own count, and refuses nothing
        Operation::DepositByLoop => Ok(word::inner::deposit_portable_loop(x, y, y.count_ones())),
        Operation::Select => word::select(x, y),
        Operation::RankRead => lent::rank_read(words, x, y),
    }
}

// The operation, held to the refusal, the operand and the word that are recorded.
pub fn run_case(reader: &mut Reader<'_>) -> Result<(), Finding> {
    let mut words = [0u64; WORDS];
    let call = read_call(reader)?;
    let lent = fill(reader, &mut words)?;
    let told = operate(call, lent);
    let refusal = reader.number()?;
    let operand = reader.number()?;
    let word = reader.number()?;
    hold_refusal(told.err(), refusal, operand)?;
    hold(told.unwrap_or(0) == word, Finding::WordDiffers)
}

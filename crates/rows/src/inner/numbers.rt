// A refusal in numbers, as C callers and the program's lines tell it: its number, its operand, and the row that 17 has.
ghost use Rattle.std.specs.Prelude.{◌≡◌};
ghost use Rattle.rows.specs.Table.{number_of, operand_number, row_of};

use super::super::{Reason, Refusal, Which};

// A reason's number in the documents' tables.
pub fn number(reason: Reason) -> u8
    ensures { result ≡ number_of reason }
{
    match reason {
        Reason::LengthOverLimit => 1,
        Reason::StartOver63 => 2,
        Reason::TooFewWords => 3,
        Reason::CountDiffers => 4,
        Reason::NotAscending => 5,
        Reason::EntryPastLength => 6,
        Reason::LengthsDiffer => 7,
        Reason::NoRoom => 8,
        Reason::NoSuchRank => 9,
        Reason::StateOutOfBound => 10,
        Reason::StreamOverLimit => 11,
        Reason::ListGiven => 12,
        Reason::Malformed => 13,
        Reason::RunsUnfit => 14,
        Reason::RowOutside(_) => 17,
    }
}

// An operand's number, and 0 where none is named.
pub fn operand_number(operand: Option<Which>) -> u8
    ensures { result ≡ operand_number operand }
{
    match operand {
        None => 0,
        Some(Which::First) => 1,
        Some(Which::Second) => 2,
    }
}

// A refusal's number, and its operand's.
pub fn numbers(refusal: Refusal) -> (u8, u8)
    ensures { (result.0 ≡ number_of refusal.reason) × (result.1 ≡ operand_number refusal.operand) }
{
    (number(refusal.reason), operand_number(refusal.operand))
}

// The row outside self, and 0 where the reason has none.
pub fn row_of(reason: Reason) -> u64
    ensures { result ≡ row_of reason }
{
    match reason {
        Reason::RowOutside(row) => row.0,
        _ => 0,
    }
}

// What is recorded of an answer, and what differs first in a case that is held to it.
use super::reader::{Malformed, Reader};
use operand::inner::answers::summary_told;
use routes::inner::route_number;
use rows::Refusal;
use rows::inner::numbers::{numbers, row_of};
use rules::Summary;
use std::fmt;

// What differs first in a case, as README.md numbers it.
#[derive(Clone, Copy)]
pub enum Finding {
    Malformed = 1,
    RefusalDiffers = 2,
    OperandDiffers = 3,
    CountDiffers = 4,
    RouteDiffers = 5,
    DensityDiffers = 6,
    StateDiffers = 7,
    WordDiffers = 8,
    OutputDiffers = 9,
    RunsDiffers = 10,
    RowDiffers = 11,
}

impl fmt::Display for Finding {
    fn fmt<W: fmt::Write>(&self, f: &mut fmt::Formatter<W>) -> fmt::Result {
        let number = *self as u8;
        write!(f, "finding {number}")
    }
}

impl From<Malformed> for Finding {
    fn from(_malformed: Malformed) -> Finding {
        Finding::Malformed
    }
}

// The finding, where what is held to the record is not the same.
pub fn hold(same: bool, otherwise: Finding) -> Result<(), Finding> {
    if same { Ok(()) } else { Err(otherwise) }
}

// A refusal's number and operand, held to what is recorded. Both are 0 where nothing is refused.
pub fn hold_refusal(refusal: Option<Refusal>, number: u64, operand: u64) -> Result<(), Finding> {
    let (told_number, told_operand) = refusal.map_or((0, 0), numbers);
    hold(u64::from(told_number) == number, Finding::RefusalDiffers)?;
    hold(u64::from(told_operand) == operand, Finding::OperandDiffers)
}

// What is recorded of an answer.
#[derive(Clone, Copy)]
pub struct Expected {
    refusal: u64,
    operand: u64,
    count: u64,
    route: u64,
    density: f64,
}

// m halved so many times. Each step is exact, since a density is 0 or at least 2^-20; at 0 nothing is left to halve.
fn halved(m: u64, times: u64) -> f64 {
    let mut x = std::num::nearest_u64_to_f64(m);
    for _ in 0..times {
        if x == 0.0 {
            return x;
        }
        x = x / 2.0;
    }
    x
}

// Equal, and of one sign where both are zeros, which a quotient tells apart.
fn same_float(x: f64, y: f64) -> bool {
    x == y && 1.0 / x == 1.0 / y
}

// The row outside self, which stands after the numbers of a recovery's answer. Where none is told it is 0.
pub fn read_row(reader: &mut Reader<'_>, is_told: bool) -> Result<u64, Malformed> {
    if is_told { reader.number() } else { Ok(0) }
}

// The row outside self that an answer tells, and 0 where it tells none.
pub fn row_told(answer: Result<Summary, Refusal>) -> u64 {
    answer.err().map_or(0, |refusal| row_of(refusal.reason))
}

impl Expected {
    pub fn read(reader: &mut Reader<'_>) -> Result<Expected, Malformed> {
        Ok(Expected {
            refusal: reader.number()?,
            operand: reader.number()?,
            count: reader.number()?,
            route: reader.number()?,
            density: halved(reader.number()?, reader.number()?),
        })
    }

    pub fn hold(self, answer: Result<Summary, Refusal>) -> Result<(), Finding> {
        let summary = summary_told(answer);
        hold_refusal(answer.err(), self.refusal, self.operand)?;
        hold(summary.count == self.count, Finding::CountDiffers)?;
        hold(
            u64::from(route_number(summary.route)) == self.route,
            Finding::RouteDiffers,
        )?;
        hold(
            same_float(summary.density, self.density),
            Finding::DensityDiffers,
        )
    }
}

// A set operation row by row, on two operands that are no lists and of one length.
#![tactic(auto)]

pub mod inner;
mod op;
mod write;

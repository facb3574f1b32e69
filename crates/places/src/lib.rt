// The place of a byte's set bit of a rank, from a constant table.
#![tactic(auto)]

pub mod inner;
mod table;

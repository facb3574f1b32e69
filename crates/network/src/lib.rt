// The byte network: word deposit and extract a byte at a time.
#![tactic(auto)]

pub mod inner;
mod lanes;
mod num;

// The runs of a mask: how many numbers they are, and the numbers.
#![tactic(auto)]

pub mod inner;

// Runs of rows, laid over lent words or listed.
#![tactic(auto)]

pub mod inner;

// Rows of a second mask that lie outside self: the first of them. Two masks in words are read word by word; in all other mixes the second mask is
// asked for its next row, and self for how far it has all rows from there on, so that runs are passed as a whole.
#![tactic(auto)]

pub mod inner;
mod spans;
mod walks;
mod words;

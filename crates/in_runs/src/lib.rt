// From rows back to ranks where self or the second mask is runs: a run at a time, and not a row or a chunk. What calls it has checked the operands.
// Document 02, P6.
#![tactic(auto)]

mod counts;
pub mod inner;
mod skips;

// From rows back to ranks a chunk of 64 rows at a time: the rows of both masks as words, extracted, and laid from any bit of the output on. What
// calls it has checked the operands. Document 02, P6.
#![tactic(auto)]

mod chunks;
pub mod inner;
mod stores;

// Bits laid over lent words, from any bit on; words stored, cleared and copied.
#![tactic(auto)]

pub mod inner;

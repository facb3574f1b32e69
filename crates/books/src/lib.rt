// The two books: where a row or a rank becomes a bit of lent words.
#![tactic(auto)]

pub mod inner;

// The route of a composition, chosen by document 01's table.
#![tactic(auto)]

pub mod inner;

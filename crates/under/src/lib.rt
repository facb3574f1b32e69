// Composition by rank where self is runs: each takes the ranks that lie under it, as many as it has rows. Each kernel lays its rows from any bit of the
// output on, and tells how many; what calls it has checked the operands.
#![tactic(auto)]

mod copies;
mod entries;
mod gathers;
pub mod inner;
mod windows;

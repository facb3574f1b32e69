// Composition by rank where the rank mask is runs, and self words or a list: of each run of ranks the rows stay, or are marked, as a whole. Each kernel
// lays its rows from any bit of the output on, and tells how many; what calls it has checked the operands.
#![tactic(auto)]

mod chunks;
mod entries;
pub mod inner;
mod stretches;
mod whole;

// Composition by rank where rows are marked one by one: routes 4, 5 and 6 of document 01, part 6. Each kernel lays its rows from any bit of the
// output on; what calls it has checked the operands and chosen the route.
#![tactic(auto)]

mod driven;
pub mod inner;
mod lists;

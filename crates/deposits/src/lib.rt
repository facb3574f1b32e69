// Composition by rank where rank bits are deposited: routes 7 to 10 of document 01, part 6. Each kernel lays its rows from any bit of the output
// on; what calls it has checked the operands and chosen the route.
#![tactic(auto)]

mod deposit;
pub mod inner;
mod ranks;
mod whole;

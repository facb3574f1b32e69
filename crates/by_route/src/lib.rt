// Composition by rank laid by a route of document 01's table, a kernel of `mask`, `marks`, `deposits`, `kept` or `under` for each route and
// form. It lays its rows from any bit of the output on; what calls it has checked the operands and chosen the route.
#![tactic(auto)]

pub mod inner;
mod lists;
mod words;

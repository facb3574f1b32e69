// Operands: a mask's form by value with the lent slices beside it. What is asked of a form, its checks in document 01's order, its rows a
// chunk at a time, and the answer that is made of what was done with it.
#![tactic(auto)]

pub mod inner;

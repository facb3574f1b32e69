// The C boundary for tests, no code: what a call tells, cell by cell, and what it leaves of the memory lent to it. include/probe.h says it in C.
#![tactic(auto)]

// The numbers that the cells have, and the density.
#[derive(Clone, Copy)]
pub struct Told {
    pub refusal: u64,
    pub operand: u64,
    pub count: u64,
    pub route: u64,
    pub word: u64,
    pub done: u64,
    pub ranks: u64,
    pub kept: u64,
    pub outside: u64,
    pub number: u64,
    pub density: f64,
}

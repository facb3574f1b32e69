// The program's page of the book, no code: document 01's lines, what is well formed and what is told for any input.
#![tactic(auto)]

use rows::Refusal;
use rules::Summary;

// What was written: the answer, and how long the text of its lines is, which a refusal has too. An output that is shorter than the text
// has refusal 8 and length 0.
#[derive(Clone, Copy)]
pub struct Written {
    pub answer: Result<Summary, Refusal>,
    pub len: usize,
}

// What a well formed input has: so many digits for self and so many for the rank mask.
#[derive(Clone, Copy)]
pub struct Masks {
    pub s: usize,
    pub r: usize,
}

// The book of rules: the types that a user sees; what is right of every operation stands in specs/, and the theorems about it in proofs/.
// No code.
#![tactic(auto)]

use rows::{Rank, Refusal, Row, Way};

// The form of an operand. Words and rows are lent beside it, and a slice that the form does not use is ignored.
#[derive(Clone, Copy)]
pub enum Form {
    All {
        length: u64,
    },
    None {
        length: u64,
    },
    Words {
        start: u64,
        length: u64,
        claimed: u64,
    },
    List {
        length: u64,
    },
    // Runs of rows, lent as numbers in pairs where a list's rows are: first row, row past the last, first row, and so on.
    Runs {
        length: u64,
    },
}

// A run of rows: its first row, and the row past its last.
#[repr(C)]
#[derive(Clone, Copy)]
pub struct Run {
    pub first: u32,
    pub past: u32,
}

// What every operation returns of its result: the count of its set rows, the route by which it was composed, none outside composition, and the density.
#[derive(Clone, Copy)]
pub struct Summary {
    pub count: u64,
    pub route: Option<Route>,
    pub density: f64,
}

// What the writer of runs gives: the summary, and how many runs it wrote.
#[derive(Clone, Copy)]
pub struct Written {
    pub summary: Summary,
    pub runs: u64,
}

// What the counts are multiplied by before they are held against the lengths: 16 for the loop form, 32 for mask-driven.
#[derive(Clone, Copy)]
pub struct Factors {
    pub sparse: u32,
    pub driven: u32,
}

// The ways of the route table, as its last column names them.
#[derive(Clone, Copy)]
pub enum Route {
    RankMask,
    SelfMask,
    NoRows,
    EntryAtRank,
    EntryIfSet,
    MaskDriven,
    Gathered(Way),
    Read(Way),
}

// The set operations. Not is of the first operand.
#[derive(Clone, Copy)]
pub enum Operation {
    And,
    Or,
    AndNot,
    Not,
}

// A stream's state: the rows fed, the ranks fed, which are the set rows among them, and how many rows were kept. The rows fed are the
// next piece's first row, and the ranks fed its first rank; kept is a count and stands for neither.
#[derive(Clone, Copy, Debug, PartialEq, Eq)]
pub struct State {
    pub done: Row,
    pub ranks: Rank,
    pub kept: u64,
}

// A recovery stream's state: the rows fed, the ranks fed, which are self's set rows among them, and how many of these were kept. The ranks fed are
// the next piece's first bit in the output; done is where it begins in both masks.
#[derive(Clone, Copy, Debug, PartialEq, Eq)]
pub struct RecoveryState {
    pub done: Row,
    pub ranks: Rank,
    pub kept: u64,
}

// What a feed gives: its answer, and the state of its stream to hand to the next feed, which after a refusal is the one that it was given. A row that
// 17 tells is counted in the piece.
#[derive(Clone, Copy)]
pub struct Fed<S> {
    pub answer: Result<Summary, Refusal>,
    pub state: S,
}

// What our own crates call of an operand, a module for each subject.
pub mod answers;
pub mod checks;
pub mod chunks;
pub mod counts;
pub mod forms;
pub mod states;

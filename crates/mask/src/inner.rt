// What our own crates call of the conversions, a module for each subject.
pub mod answers;
pub mod lay;
pub mod runs;

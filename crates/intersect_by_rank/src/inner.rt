// What the composer and the tests call too, a module for each subject.
pub mod compose;
pub mod judge;
pub mod lay;

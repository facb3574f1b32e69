// What our own crates call of the runs.
pub mod lay;
pub mod list;

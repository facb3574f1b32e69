// What our own crates call of recovery: the checks, part by part, and the recovery laid from any bit on.
pub mod judge;
pub mod lay;
pub mod whole;

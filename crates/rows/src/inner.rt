// What our own crates call: the makers of refusals, the parts of tables of checks that all operations have, and a refusal's numbers.
pub mod numbers;
pub mod verdicts;

// No code: the demands of document 00, and one answer for each input, as theorems about what the crates' contracts allow.
#![tactic(auto)]

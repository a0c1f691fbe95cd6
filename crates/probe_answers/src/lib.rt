// What the crates under `probe` share: the numbers and rows of a request and of an answer (docs/REQUESTS.md). Proved safe; more of `number_of` alone.
#![tactic(auto)]

pub mod numbers;
pub mod runs;

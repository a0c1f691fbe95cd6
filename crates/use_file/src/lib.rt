// What users of bench files can conclude from the contracts alone.
#![tactic(auto)]

pub mod refusals;
pub mod twice;

// What users of words can conclude from the contracts alone.
#![tactic(auto)]

pub mod refusals;
pub mod shows;
pub mod twice;

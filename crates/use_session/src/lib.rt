// What users of a module session can conclude from its contracts alone.
#![tactic(auto)]

pub mod refusals;
pub mod shows;
pub mod twice;

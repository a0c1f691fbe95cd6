// What users of packets and rows can conclude from the contracts alone.
#![tactic(auto)]

pub mod refusals;
pub mod shows;
pub mod twice;

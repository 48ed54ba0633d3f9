// Definitions and their generic parameters, and the rules that they follow.
#![tactic(auto)]

pub mod kinds;
pub mod tables;

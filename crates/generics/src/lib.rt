// The catalogue: definitions that follow the rules, and nothing else, enter it.
#![tactic(auto)]

pub mod catalogue;
pub mod declare;
mod lay;
pub mod ranks;
pub mod refusal;
mod rules;
pub mod stored;
pub mod terms;

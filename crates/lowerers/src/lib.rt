// Two lowerers: one writes defaults out, the other numbers what is not known.
#![tactic(auto)]

pub mod entries;
pub mod lowering;
mod makes;
pub mod terms;
pub mod variables;

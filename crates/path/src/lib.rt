// Paths: their segments, the written arguments, and the check that comes before matching.
#![tactic(auto)]

pub mod args;
pub mod checked;
mod prohibited;
pub mod segments;
#[cfg(test)]
mod tests;

// Reports about the generic arguments of a path, and the lists that they are told to.
#![tactic(auto)]

mod held;
pub mod laws;
pub mod lent;
pub mod list;
pub mod own;
pub mod reports;
#[cfg(test)]
mod tests;

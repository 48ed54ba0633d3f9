// What the names of a day stand for, and what a path names by them.
#![tactic(auto)]

pub mod known;
#[cfg(test)]
mod tests;

// What the catalogue tells of a definition and of the places of its whole list.
#![tactic(auto)]

mod counts;
pub mod view;

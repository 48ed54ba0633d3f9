// What a lowerer is: a report list that makes entries, one for a place of a definition's whole list.
#![tactic(auto)]

pub mod defaults;
pub mod entry;
pub mod fit;
pub mod makings;
pub mod meaning;

// Tests of the catalogue, in a crate of their own, so that the catalogue is proved once.
#![tactic(auto)]

#[cfg(test)]
mod limits;
#[cfg(test)]
mod reading;
#[cfg(test)]
mod refusals;
#[cfg(test)]
mod words;

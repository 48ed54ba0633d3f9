// Tests of the two lowerers and of the trait that they keep, in a crate of their own, so that the lowerers are proved
// once.
#![tactic(auto)]

#[cfg(test)]
mod callers;
#[cfg(test)]
mod kept;
#[cfg(test)]
mod makings;
#[cfg(test)]
mod numbers;
#[cfg(test)]
mod plain;
#[cfg(test)]
mod reports;
#[cfg(test)]
mod rows;
#[cfg(test)]
mod stocks;
#[cfg(test)]
mod words;
#[cfg(test)]
mod written;

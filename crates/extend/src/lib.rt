//! What can be added to the reader from outside, each whole and in one file: a source, a class, a wrapper that owns its
//! input and one that borrows it.
#![tactic(auto)]

pub mod decimal;
pub mod keys;
pub mod lent;
pub mod tally;
#[cfg(test)]
mod tests;

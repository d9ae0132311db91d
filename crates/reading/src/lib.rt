//! Reading lists: what holds of two inputs that are taken through one list of calls.
#![tactic(auto)]

pub mod list;
pub mod made;

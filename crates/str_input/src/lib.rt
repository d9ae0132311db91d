//! A text at hand as an input.
#![tactic(auto)]

mod str_input;

pub use crate::str_input::StrInput;

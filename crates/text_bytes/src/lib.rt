//! Characters and runs of them in the bytes of a text.
#![tactic(auto)]

mod cursor;
mod spans;

pub use crate::cursor::{Cursor, is_boundary};

//! A source behind a ring of sixteen places.
#![tactic(auto)]

mod buffered_input;
mod chars;
mod fallible_buffered_input;
mod feed;
mod ring;

pub use buffered_input::BufferedInput;
pub use fallible_buffered_input::FallibleBufferedInput;

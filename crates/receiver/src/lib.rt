//! A receiver, made with public interfaces alone: packets with gaps as a failing source, and a
//! stash before any failing source as an input.
#![tactic(auto)]

mod beside;
mod drawn;
mod hold;
mod packets;
mod quote;
mod stash;
#[cfg(test)]
mod tests;

pub use crate::beside::receive_beside;
pub use crate::packets::{Packets, SLOT_LIMIT, Slot};
pub use crate::quote::UntilQuote;
pub use crate::stash::Stash;

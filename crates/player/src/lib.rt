//! Commands of the protocol, performed on an input of any kind.
#![tactic(auto)]

mod desk;
mod list;
mod play;
mod predicates;
mod rooms;
mod steps;
mod usual;

pub use desk::Desk;
pub use list::{Lines, idle, serve, serve_counted};

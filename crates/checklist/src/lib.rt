//! What a technician checks of a reader: that card and cable give the same, that a pulled cable is told, and that scans stop where they must.
#![tactic(auto)]

pub mod both;
pub mod pulls;
pub mod readings;
pub mod scans;

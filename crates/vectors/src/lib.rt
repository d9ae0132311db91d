//! Vectors, run as tests.
#![tactic(auto)]

#[cfg(test)]
mod classes;
#[cfg(test)]
mod encoding;
#[cfg(test)]
mod inputs;
#[cfg(test)]
mod lists;
#[cfg(test)]
mod scan_lists;
#[cfg(test)]
mod scans;
#[cfg(test)]
mod steps;

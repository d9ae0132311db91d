//! Each character that may end a scan, at each place of a line, run as tests.
#![tactic(auto)]

#[cfg(test)]
mod blanks;
#[cfg(test)]
mod calls;
#[cfg(test)]
mod fetches;
#[cfg(test)]
mod fronts;
#[cfg(test)]
mod kinds;
#[cfg(test)]
mod lines;
#[cfg(test)]
mod outside;
#[cfg(test)]
mod skips;

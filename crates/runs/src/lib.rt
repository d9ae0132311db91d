//! Runs of characters, skipped or fetched character by character, over any input.
#![tactic(auto)]

ghost use Rattle.std.specs.Prelude.{◌≡◌, Some, None, MatchResult};

use error::Refusal;

pub mod blanks;
pub mod calls;
pub mod laws;
pub mod plain;
pub mod scan;
mod steps;

pub use scan::Scan;

/// What a fetch answers: how much of its run it appended to its room, and why not all of it.
#[derive(Clone, Copy)]
pub struct Fetched {
    /// How many characters it took and appended.
    pub count: usize,
    /// The new filled count of its room.
    pub filled: usize,
    /// None where the whole run was appended.
    pub refusal: Option<Refusal>,
}

impl Fetched {
    /// The answer of a fetch with this count and filled count.
    pub fn new(count: usize, filled: usize, refusal: Option<Refusal>) -> Fetched
        ensures { result ≡ record { count = count; filled = filled; refusal = refusal } }
    {
        Fetched {
            count,
            filled,
            refusal,
        }
    }

    /// The new filled count, or why the run is not in the room as a whole. What of it fitted is there all the same.
    pub fn into_result(self) -> Result<usize, Refusal>
        ensures { MatchResult result (λ filled. (self.refusal ≡ None) × (filled ≡ self.filled))
            (λ refusal. self.refusal ≡ Some refusal) }
    {
        match self.refusal {
            Some(refusal) => Err(refusal),
            None => Ok(self.filled),
        }
    }
}

/// Whether tabs count as blanks, for a call that skips blanks.
#[derive(Clone, Copy)]
pub enum SkipTabs {
    Yes,
    No,
}

/// Which blanks were skipped.
#[derive(Clone, Copy)]
pub struct WhitespaceResult {
    /// A tab was among them.
    pub found_tabs: bool,
    /// A space was among them.
    pub has_valid_yaml_ws: bool,
}

/// What becomes of a run at a `:`.
#[derive(Clone, Copy)]
pub enum Colon {
    /// It is a character as any other.
    Free,
    /// The run stops.
    Stops,
    /// The run goes on if a character of the class follows.
    Leads,
}

//! An input that can lend parts of its text.

ghost use Rattle.std.specs.Prelude.{ℕ, List, Some, None, Option, MatchOption};

use crate::Input;

/// What it lends outlives it. Which parts it has is each kind's own.
pub trait BorrowedInput<'a>: Input {
    // the part from one byte to another, or that there is none
    ghost Lends: { Self → ℕ → ℕ → Option (List ℕ) → Type 0 };

    /// A part of the original text, by bytes, if it has that part.
    fn slice_borrowed(&self, start: usize, end: usize) -> Option<&'a [u8]>
        ensures { MatchOption result (Lends self.now start end None)
            (λ part. Lends self.now start end (Some part.now)) };
}

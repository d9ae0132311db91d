//! What an input holds, as it shows it.

ghost use Rattle.std.specs.Prelude.{◌≡◌, ℕ};
ghost use Rattle.input.specs.Tests.{are_shown, thrice, marker_in};

use crate::Marker;
use char_traits::is_blank_or_breakz;

/// What shows a character at each place, and NUL past its last.
pub trait Shows {
    ghost shown: { Self → ℕ → ℕ };

    fn at(&self, n: usize) -> char
        ensures { result ≡ shown self.now n };

    /// Whether the characters from the first on are those wanted, with NUL past the last.
    fn begins_with(&self, wanted: &[char]) -> bool
        ensures { result ≡ are_shown (shown self.now) wanted.now }
    {
        for (n, c) in wanted.iter().enumerate() {
            if self.at(n) != *c {
                return false;
            }
        }
        true
    }

    /// Whether a character stands three times at the front.
    fn is_thrice(&self, c: char) -> bool
        ensures { result ≡ thrice c (shown self.now) }
    {
        self.at(0) == c && self.at(1) == c && self.at(2) == c
    }

    /// The document marker at the front, if one is there.
    fn marker(&self) -> Option<Marker>
        ensures { result ≡ marker_in (shown self.now) }
    {
        if !is_blank_or_breakz(self.at(3)) {
            None
        } else if self.is_thrice('-') {
            Some(Marker::Start)
        } else if self.is_thrice('.') {
            Some(Marker::End)
        } else {
            None
        }
    }
}

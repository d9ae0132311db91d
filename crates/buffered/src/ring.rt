//! What is held of a source: a queue of characters in sixteen places.

ghost use Rattle.std.specs.Prelude.{◌≡◌, ◌<◌, ◌≤◌, true, [], ◌∷◌, ◌++◌, length, slice_index};
ghost use Rattle.std.proofs.Math.Utf8.{scalars};
ghost use Rattle.input.specs.Calls.{none_left, first_of};
ghost use Rattle.source.specs.Steps.{Gives};

use input::shows::Shows;

/// How many characters a ring holds at most, and so its widest window. A scanner looks at most four characters ahead, at
/// eight for the digits of an escape, and at two more than the indentation where it measures that: so less than eight would
/// not do, and with sixteen an indentation of up to fourteen is measured by one lookahead. A power of two, so that a place
/// is found by a mask.
pub(crate) const PLACES: usize = 16;

/// Characters that were drawn and not yet taken, oldest first.
#[derive(Drop)]
pub(crate) struct Ring {
    places: [char; 16],
    head: usize,
    len: usize,
    ghost characters: { scalars places ≡ true },
    ghost inside: { head < 16 },
    ghost room: { len ≤ 16 },
}

impl Ring {
    ghost use Rattle.buffered.specs.Ring.{queue};

    pub(crate) fn new() -> Ring
        ensures { queue result ≡ [] }
    {
        Ring {
            places: ['\0'; 16],
            head: 0,
            len: 0,
        }
    }

    /// How many are held.
    #[inline(always)]
    pub(crate) fn len(&self) -> usize
        ensures { result ≡ length (queue self.now) }
    {
        self.len
    }

    #[inline(always)]
    pub(crate) fn is_empty(&self) -> bool
        ensures { result ≡ none_left (queue self.now) }
    {
        self.len == 0
    }

    /// The first character, if one is held.
    #[inline(always)]
    pub(crate) fn first(&self) -> Option<char>
        ensures { result ≡ first_of (queue self.now) }
    {
        if self.len == 0 {
            None
        } else {
            Some(self.places[self.head])
        }
    }

    #[inline(always)]
    pub(crate) fn push(&mut self, c: char)
        requires { length (queue self.old) < 16 }
        ensures { queue self.new ≡ queue self.old ++ (c ∷ []) }
    {
        let at = (self.head + self.len) % PLACES;
        self.places[at] = c;
        self.len += 1;
    }

    /// Takes the first character, if one is held.
    #[inline(always)]
    pub(crate) fn pop(&mut self) -> Option<char>
        ensures { Gives result (queue self.old) (queue self.new) }
    {
        if self.len == 0 {
            return None;
        }
        let c = self.places[self.head];
        self.head = (self.head + 1) % PLACES;
        self.len -= 1;
        Some(c)
    }
}

impl Shows for Ring {
    ghost use Rattle.buffered.specs.Ring.{queue};

    ghost shown = { λ r. slice_index (queue r) };

    /// The character at a place, or NUL past the last.
    fn at(&self, n: usize) -> char {
        if n < self.len {
            self.places[(self.head + n) % PLACES]
        } else {
            '\0'
        }
    }
}

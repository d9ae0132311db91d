//! Places for characters, in a row from the first.

ghost use Rattle.std.specs.Prelude.{◌≡◌, ◌+◌, ◌<◌, ◌≤◌, true, [], ◌∷◌, ◌++◌, length, slice_index};
ghost use Rattle.std.proofs.Math.Utf8.{scalars};
ghost use Rattle.source.specs.Steps.{Gives};
ghost use Rattle.input.specs.Calls.{first_of};

use input::shows::Shows;

/// The characters that a stash holds, the first of them in the first place: all are shifted down
/// when it is taken. It has sixteen places, the window that every input has to offer.
#[derive(Drop)]
pub(crate) struct Hold {
    places: [char; 16],
    len: usize,
    ghost row: { length places ≡ 16 },
    ghost characters: { scalars places ≡ true },
    ghost room: { len ≤ 16 },
}

impl Hold {
    ghost use Rattle.receiver.specs.Hold.{hold_chars};

    /// Nothing is held.
    pub(crate) fn new() -> Hold
        ensures { hold_chars result ≡ [] }
    {
        Hold {
            places: ['\0'; 16],
            len: 0,
        }
    }

    /// How many are held.
    pub(crate) fn len(&self) -> usize
        ensures { result ≡ self.now.len }
    {
        self.len
    }

    /// The first character, if one is held.
    pub(crate) fn first(&self) -> Option<char>
        ensures { result ≡ first_of (hold_chars self.now) }
    {
        if self.len == 0 {
            None
        } else {
            Some(self.places[0])
        }
    }

    /// Adds a character behind those that are held.
    pub(crate) fn push(&mut self, c: char)
        requires { self.old.len < 16 }
        ensures holds { hold_chars self.new ≡ hold_chars self.old ++ (c ∷ []) }
        ensures len { self.new.len ≡ self.old.len + 1 }
    {
        self.places[self.len] = c;
        self.len += 1;
    }

    /// Takes the first character, if one is held.
    pub(crate) fn pop(&mut self) -> Option<char>
        ensures { Gives result (hold_chars self.old) (hold_chars self.new) }
    {
        if self.len == 0 {
            return None;
        }
        let c = self.places[0];
        // the borrow checker does not lend a field of a type with ghost fields in place
        let mut places = self.places;
        places.rotate_left(1);
        self.places = places;
        self.len -= 1;
        Some(c)
    }
}

impl Shows for Hold {
    ghost use Rattle.receiver.specs.Hold.{hold_chars};

    ghost shown = { λ h. slice_index (hold_chars h) };

    /// The character at a place, or NUL past the last.
    fn at(&self, n: usize) -> char {
        if n < self.len { self.places[n] } else { '\0' }
    }
}

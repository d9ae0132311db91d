//! A source: the keys that were pressed at a keypad.

ghost use Rattle.std.specs.Prelude.{◌≡◌, ◌+◌, ◌≤◌, [], length, IfOk};
ghost use Rattle.reader.specs.Limit.{text_limit};
ghost use Rattle.reader.specs.Numbers.{outcome};
ghost use Rattle.reader.specs.Starts.{Starts, limit_number};

use reader::{FallibleSource, Fault, FaultKind, Place, Refusal, is_too_long};

/// Keys by their numbers: 0 to 9 give a digit, and any other is a fault of the line.
#[derive(Drop)]
pub struct Keys<'a> {
    keys: &'a [u8],
    given: Place,
    ghost few: { given + length keys.now ≤ text_limit },
}

impl<'a> Keys<'a> {
    ghost use Rattle.extend.specs.Keys.{key_digits, ending_after, keys_ahead, keys_ending, keys_given};

    /// Over these keys, unless they are too many.
    pub fn of(keys: &'a [u8]) -> Result<Keys<'a>, Refusal>
        ensures answers { outcome (λ _. []) result ≡ limit_number text_limit (length keys.now) }
        ensures starts { IfOk result (λ s. Starts (keys_ahead s) (keys_ending s) (keys_given s)
            (key_digits keys.now) (ending_after 0 keys.now)) }
    {
        if is_too_long(keys.len()) {
            return Err(Refusal::TooLong);
        }
        Ok(Keys { keys, given: 0 })
    }
}

impl FallibleSource for Keys<'_> {
    ghost use Rattle.extend.specs.Keys.{keys_ahead, keys_ending, keys_given};
    ghost use Rattle.extend.specs.KeysLaws.{keys_characters, keys_short, keys_placed};

    /// The characters that it will give, the first one first.
    ghost ahead = { keys_ahead };

    /// How it ends once they are given: clean, or by a fault with its place.
    ghost ending = { keys_ending };

    /// How many characters it gave so far.
    ghost given = { keys_given };

    /// A proof that each of them is a character.
    ghost characters = { keys_characters };

    /// A proof that their bytes are no more than a text may have.
    ghost short = { keys_short };

    /// A proof that a fault's place is the number of characters that are given before it.
    ghost placed = { keys_placed };

    fn step(&mut self) -> Result<Option<char>, Fault> {
        match self.keys {
            [] => Ok(None),
            [key @ 0..=9, rest @ ..] => {
                self.keys = rest;
                self.given += 1;
                Ok(Some((b'0' + *key) as char))
            }
            _ => Err(Fault {
                kind: FaultKind::InputIo,
                place: self.given,
            }),
        }
    }
}

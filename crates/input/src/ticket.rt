//! A reading is opened and must be closed: its ticket is no value that can be let go.

ghost use Rattle.std.specs.Prelude.{◌≡◌, is_some};
ghost use Rattle.input.specs.Calls.{Closes, ClosesHeld};

use crate::{Closing, Input};

/// The ticket of a reading. Only closing takes it.
pub struct Reading {
    opened: (),
}

impl Reading {
    /// Opens a reading of an input.
    pub fn open<I: Input>(_input: &I) -> Reading
        ensures { result ≡ record { opened = tt } }
    {
        Reading { opened: () }
    }

    /// Asks for lookahead 1, and tells how the reading ended.
    pub fn close<I: Input>(self, input: &mut I) -> Closing
        ensures { Closes result (I.view input.old) (I.view input.new) }
    {
        let Reading { opened: () } = self;
        input.lookahead(1);
        if !input.next_is_z() {
            return Closing::Left;
        }
        match input.met_ending() {
            Some(Err(fault)) => Closing::Failed(fault),
            _ => Closing::Whole,
        }
    }

    /// Closes the reading that is open, if one is.
    pub fn close_held<I: Input>(held: Option<Reading>, input: &mut I) -> Option<Closing>
        ensures closes { ClosesHeld result (I.view input.old) (I.view input.new) }
        ensures held { is_some result ≡ is_some held }
    {
        match held {
            Some(reading) => Some(reading.close(input)),
            None => None,
        }
    }

    /// Closes the reading that is open; where none is, one is opened for it.
    pub fn close_opened<I: Input>(held: Option<Reading>, input: &mut I) -> Closing
        ensures { Closes result (I.view input.old) (I.view input.new) }
    {
        held.unwrap_or_else(|| Reading::open(input)).close(input)
    }
}

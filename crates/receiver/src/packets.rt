//! Packets as they were received, as a source that may fail.

ghost use Rattle.std.specs.Prelude.{◌≡◌, ◌+◌, ◌≤◌, [], length, IfOk, MatchResult};
ghost use Rattle.error.specs.Numbers.{clean, outcome};
ghost use Rattle.source.specs.Starts.{limit_number};
ghost use Rattle.source.specs.Codes.{stated_end};
ghost use Rattle.receiver.specs.SlotLimit.{slot_limit};

use error::{Fault, Place, Refusal};
use source::{CodesEnding, FallibleSource};

/// The most slots: whatever is in them, at four bytes each it has to be as short as a text, which
/// allows 16,383; this is the round number below.
pub const SLOT_LIMIT: usize = 16_000;

/// A slot of a packet: a character, or none where nothing was received.
pub type Slot = Option<char>;

/// The characters of packets, without their gaps: the slots that are still to come, and how the
/// link ends.
#[derive(Drop)]
pub struct Packets<'a> {
    slots: &'a [Slot],
    given: Place,
    ending: CodesEnding,
    ghost short: { given + length slots.now ≤ slot_limit },
}

impl<'a> Packets<'a> {
    ghost use Rattle.receiver.specs.Packets.{slot_chars, PacketsStart};

    /// No slots, and a clean ending.
    pub fn new() -> Packets<'a>
        ensures { PacketsStart result [] clean }
    {
        Packets {
            slots: &[],
            given: 0,
            ending: CodesEnding::Clean,
        }
    }

    /// These slots and this ending, unless the slots are too many.
    pub fn of(slots: &'a [Slot], ending: CodesEnding) -> Result<Packets<'a>, Refusal>
        ensures answers { outcome (λ _. []) result ≡ limit_number slot_limit (length slots.now) }
        ensures starts { IfOk result (λ packets.
            PacketsStart packets (slot_chars slots.now)
            (stated_end ending (length (slot_chars slots.now)))) }
    {
        if slots.len() > SLOT_LIMIT {
            return Err(Refusal::TooLong);
        }
        Ok(Packets {
            slots,
            given: 0,
            ending,
        })
    }

    /// Begins other slots, unless they are too many.
    pub fn load(&mut self, slots: &'a [Slot], ending: CodesEnding) -> Result<(), Refusal>
        ensures answers { outcome (λ _. []) result ≡ limit_number slot_limit (length slots.now) }
        ensures loads { MatchResult result
            (λ _. PacketsStart self.new (slot_chars slots.now)
            (stated_end ending (length (slot_chars slots.now))))
            (λ _. self.new ≡ self.old) }
    {
        *self = Packets::of(slots, ending)?;
        Ok(())
    }
}

impl FallibleSource for Packets<'_> {
    ghost use Rattle.receiver.specs.Packets.{packets_ahead, packets_ending, packets_given};
    ghost use Rattle.receiver.specs.PacketsLaws.{packets_characters, packets_short, packets_placed};

    ghost ahead = { packets_ahead };

    ghost ending = { packets_ending };

    ghost given = { packets_given };

    ghost characters = { packets_characters };

    ghost short = { packets_short };

    ghost placed = { packets_placed };

    fn step(&mut self) -> Result<Option<char>, Fault> {
        while let [slot, rest @ ..] = self.slots {
            self.slots = rest;
            if let Some(c) = *slot {
                self.given += 1;
                return Ok(Some(c));
            }
        }
        self.ending.after(self.given)?;
        Ok(None)
    }
}

//! Why a reading stops, and why the reader says no.
#![tactic(auto)]

ghost use Rattle.std.specs.Prelude.{◌≡◌, Some, nat_lt};
ghost use Rattle.std.specs.Option.{option_to_list};
ghost use Rattle.error.specs.Limit.{text_limit};
ghost use Rattle.error.specs.Numbers.{kind_number, number};
ghost use Rattle.error.specs.Messages.{kind_words, words, message};

use std::error::Error;
use std::fmt;

/// A place in a text or a source: so many bytes or characters from its start.
pub type Place = u16;

/// The most bytes of a text: a place in it, the one after its last byte too, is a `Place`.
pub const TEXT_LIMIT: usize = 65_535;

/// Whether so many bytes are more than a text may have.
pub fn is_too_long(bytes: usize) -> bool
    ensures { result ≡ nat_lt text_limit bytes }
{
    bytes > TEXT_LIMIT
}

/// What went wrong in a source: on the line, or in the decoder.
#[derive(Clone, Copy, Debug, PartialEq, Eq)]
pub enum FaultKind {
    InputIo,
    InputDecoding,
}

impl FaultKind {
    /// Its number in the table of refusals.
    pub fn number(self) -> u8
        ensures { result ≡ kind_number self }
    {
        match self {
            FaultKind::InputIo => 8,
            FaultKind::InputDecoding => 9,
        }
    }

    /// What failed, in words.
    pub fn words(self) -> &'static str
        ensures { result.now ≡ kind_words self }
    {
        match self {
            FaultKind::InputIo => "the line failed",
            FaultKind::InputDecoding => "the source's bytes or codes are no text",
        }
    }
}

/// A source's fault. Its place is the number of characters that the source gave before it.
#[derive(Clone, Copy, Debug, PartialEq, Eq)]
pub struct Fault {
    pub kind: FaultKind,
    pub place: Place,
}

/// How a source ends: clean, or with a fault.
pub type Ending = Result<(), Fault>;

/// Why the reader says no.
#[derive(Clone, Copy, Debug, PartialEq, Eq)]
pub enum Refusal {
    /// More bytes or codes than a text may have.
    TooLong,
    /// A text that is not UTF-8, with the place in bytes of its first bad character.
    IllFormed(Place),
    /// A number that was given as a character is none.
    NotACharacter,
    /// The window is too small for a test of several characters.
    NarrowWindow,
    /// A `#` with no blank before it.
    CommentNotSeparated,
    /// A filled count beyond the room.
    BeyondRoom,
    /// The next character's bytes do not fit into the room.
    RoomFull,
    /// The source failed.
    Source(Fault),
}

impl Refusal {
    /// Its number in the table of refusals.
    pub fn number(self) -> u8
        ensures { result ≡ (number self).0 }
    {
        match self {
            Refusal::TooLong => 1,
            Refusal::IllFormed(_) => 2,
            Refusal::NotACharacter => 3,
            Refusal::NarrowWindow => 4,
            Refusal::CommentNotSeparated => 5,
            Refusal::BeyondRoom => 6,
            Refusal::RoomFull => 7,
            Refusal::Source(fault) => fault.kind.number(),
        }
    }

    /// Its place, where it has one.
    pub fn place(self) -> Option<Place>
        ensures { option_to_list result ≡ (number self).1 }
    {
        match self {
            Refusal::IllFormed(place) => Some(place),
            Refusal::Source(fault) => Some(fault.place),
            _ => None,
        }
    }

    /// Why, in words.
    pub fn words(self) -> &'static str
        ensures { result.now ≡ words self }
    {
        match self {
            Refusal::TooLong => "too long",
            Refusal::IllFormed(_) => "not UTF-8",
            Refusal::NotACharacter => "a compared number is no character",
            Refusal::NarrowWindow => "the window is too small for this test",
            Refusal::CommentNotSeparated => "a comment must be separated by a blank",
            Refusal::BeyondRoom => "the filled count lies beyond the room",
            Refusal::RoomFull => "the next character does not fit the room",
            Refusal::Source(fault) => fault.kind.words(),
        }
    }
}

/// Its words, its place if it has one, and its number.
impl fmt::Display for Refusal {
    ghost output = { λ refusal. Some (message refusal) };

    fn fmt<W: fmt::Write>(&self, f: &mut fmt::Formatter<W>) -> fmt::Result {
        let words = self.words();
        let number = self.number();
        match self {
            Refusal::IllFormed(place) => write!(f, "{words} at byte {place} (refusal {number})"),
            Refusal::Source(fault) => {
                let place = fault.place;
                write!(f, "{words} at character {place} (refusal {number})")
            }
            _ => write!(f, "{words} (refusal {number})"),
        }
    }
}

/// So a program takes it by `?`, as any other error.
impl Error for Refusal {}

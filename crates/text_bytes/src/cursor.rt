//! A place in a text, and the characters from it on. An ASCII character is known by its byte alone.

mod ends;
mod parts;

ghost use Rattle.std.specs.Prelude.{◌≡◌, ◌<◌, ◌≤◌, ◌&&◌, ◌||◌, [], length, drop, Decides, ◌==◌, slice_index, IfOk, MatchOption};
ghost use Rattle.std.specs.Str.{IsCharBoundary};
ghost use Rattle.char_traits.specs.Chars.{blank_or_breakz};
ghost use Rattle.error.specs.Numbers.{outcome};
ghost use Rattle.utf8.specs.Checking.{ChecksText};
ghost use Rattle.utf8.specs.Decoding.{BeginsWith};
ghost use Rattle.input.specs.Calls.{none_left};
ghost use Rattle.input.specs.Tests.{thrice, marker_in};
ghost use Rattle.runs.specs.Runs.{at_hash};
ghost use Rattle.text_bytes.specs.Bytes.{IsPlace, begins, Thrice, Cut, IsPart};

use char_traits::is_blank_or_breakz;
use error::Refusal;
use input::Marker;
use std::str::{from_utf8, from_utf8_unchecked};
use utf8::decoder::first_char;
use utf8::text::check_text;

/// Well-formed bytes, and a place between two of their characters.
///
/// A later place of the text is another cursor: a walk leaves the one from which it began.
#[derive(Clone, Copy)]
pub struct Cursor<'a> {
    text: &'a [u8],
    place: usize,
    ghost placed: { IsPlace text.now place },
}

impl<'a> Cursor<'a> {
    ghost use Rattle.text_bytes.specs.Cursors.{place_of, text_of, ahead_from, IsStart, IsAt, ShowsFirst, IsPast};

    /// The start of some bytes, if they are a text.
    pub fn start(text: &'a [u8]) -> Result<Cursor<'a>, Refusal>
        ensures checked { ChecksText text.now (outcome (λ _. []) result) }
        ensures starts { IfOk result (IsStart text.now) }
    {
        check_text(text)?;
        Ok(Cursor { text, place: 0 })
    }

    /// A place in any bytes, if these are well-formed and it is between two of their characters.
    pub fn at(text: &'a [u8], place: usize) -> Option<Cursor<'a>>
        ensures { MatchOption result (IsPlace text.now place → ⊥) (IsAt text.now place) }
    {
        match from_utf8(text) {
            Ok(_) if is_boundary(text, place) => Some(Cursor { text, place }),
            _ => None,
        }
    }

    /// The end of the empty text.
    #[tactic(auto, using(crate::proofs::Starting::starts_empty))]
    pub fn empty() -> Cursor<'a>
        ensures { IsStart [] result }
    {
        Cursor {
            text: &[],
            place: 0,
        }
    }

    /// How many bytes lie before it.
    #[inline(always)]
    pub fn place(&self) -> usize
        ensures { result ≡ place_of self.now }
    {
        self.place
    }

    /// A part of the whole text, from one place up to another, also before the cursor. None where
    /// the places are reversed, beyond the text or within a character.
    pub fn part(&self, start: usize, end: usize) -> Option<&'a [u8]>
        ensures { MatchOption result (Cut (text_of self.now) start end → ⊥)
            (λ part. IsPart (text_of self.now) start end part.now) }
    {
        let text = self.text;
        if start <= end && is_boundary(text, start) && is_boundary(text, end) {
            Some(&text[start..end])
        } else {
            None
        }
    }

    /// The character there, and the place after it.
    pub fn first(&self) -> Option<(char, Cursor<'a>)>
        ensures { ShowsFirst self.now result }
    {
        let Cursor { text, place } = *self;
        if place == text.len() {
            return None;
        }
        let byte = text[place];
        if byte < 0x80 {
            let next = place + 1;
            return Some((char::from(byte), Cursor { text, place: next }));
        }
        let c = wide_char(text, place)?;
        let next = place + c.len_utf8();
        Some((c, Cursor { text, place: next }))
    }

    /// The place so many characters on, or the end.
    pub fn past(&self, count: usize) -> Cursor<'a>
        ensures { IsPast self.now count result }
    {
        let mut at = *self;
        let mut left = count;
        // The walk ends with the text, however large the count is.
        while left > 0 {
            let Some((_, next)) = at.first() else {
                return at;
            };
            at = next;
            left -= 1;
        }
        at
    }

    /// The character so many places on, or NUL.
    pub fn nth(&self, n: usize) -> char
        ensures { result ≡ slice_index (ahead_from self.now) n }
    {
        self.past(n).first().map_or('\0', |(c, _)| c)
    }

    /// Whether the characters from the place on begin with those wanted.
    pub fn begins_with(&self, wanted: &[char]) -> bool
        ensures { result ≡ begins wanted.now (ahead_from self.now) }
    {
        let mut at = *self;
        for want in wanted {
            match at.first() {
                Some((c, next)) => {
                    if c != *want {
                        return false;
                    }
                    at = next;
                }
                None => return false,
            }
        }
        true
    }

    /// Whether nothing is ahead.
    #[tactic(auto, using(crate::proofs::Places::none_at))]
    pub fn is_end(&self) -> bool
        ensures { result ≡ none_left (ahead_from self.now) }
    {
        self.place == self.text.len()
    }

    /// Whether a comment begins there. No wide character has the byte of a `#`.
    pub fn is_at_hash(&self) -> bool
        ensures { result ≡ at_hash (ahead_from self.now) }
    {
        self.place < self.text.len() && self.text[self.place] == b'#'
    }

    /// The document marker there, if one is.
    pub fn marker(&self) -> Option<Marker>
        ensures { result ≡ marker_in (slice_index (ahead_from self.now)) }
    {
        if self.is_marker(b'-') {
            Some(Marker::Start)
        } else if self.is_marker(b'.') {
            Some(Marker::End)
        } else {
            None
        }
    }

    /// Whether an ASCII character stands three times, and then the marker ends.
    fn is_marker(&self, byte: u8) -> bool
        requires { (0 < byte) × (byte < 128) }
        ensures { result ≡ (thrice byte (slice_index (ahead_from self.now))
            && blank_or_breakz (slice_index (ahead_from self.now) 3)) }
    {
        is_thrice(self.text, self.place, byte) && ends_marker(self.text, self.place + 3)
    }
}

/// The character at a place of a text. It is a call of its own, so that what is read of ASCII stays
/// short.
#[inline(never)]
fn wide_char(text: &[u8], place: usize) -> Option<char>
    requires { IsPlace text.now place }
    ensures { MatchOption result (drop place text.now ≡ []) (BeginsWith (drop place text.now)) }
{
    // SAFETY: the text is well-formed, and the place is between two of its characters.
    first_char(unsafe { from_utf8_unchecked(&text[place..]) })
}

/// Whether a byte stands three times from a place on.
fn is_thrice(text: &[u8], at: usize, byte: u8) -> bool
    requires { at ≤ length text.now }
    ensures { Decides result (Thrice text.now at byte) }
{
    text.len() - at >= 3 && text[at] == byte && text[at + 1] == byte && text[at + 2] == byte
}

/// Whether the end is at a place, or a byte that ends a marker.
fn ends_marker(text: &[u8], at: usize) -> bool
    requires { at ≤ length text.now }
    ensures { result ≡ (at == length text.now || blank_or_breakz (slice_index text.now at)) }
{
    at == text.len() || is_blank_or_breakz(char::from(text[at]))
}

/// Whether a place is between two characters of a text, or at its start or end. Of any bytes it tells whether the place is
/// at their end, or before a byte that begins no later byte of a character.
pub fn is_boundary(text: &[u8], at: usize) -> bool
    ensures { Decides result (IsCharBoundary text.now at) }
{
    at == text.len() || (at < text.len() && (text[at] < 0x80 || text[at] >= 0xC0))
}

//! A text at hand: a place in it and a window.

mod scans;

ghost use Rattle.std.specs.Prelude.{◌≡◌, ◌≤◌, [], length, None, MatchResult, IfOk};
ghost use Rattle.error.specs.Limit.{text_limit};
ghost use Rattle.error.specs.Numbers.{outcome};
ghost use Rattle.utf8.specs.Checking.{ChecksText};
ghost use Rattle.input.specs.View.{IsFresh};
ghost use Rattle.input.specs.Calls.{taken_by, Looks, Reads, ReadsInLine, Skips, PeeksNext, TakesFault};
ghost use Rattle.text_bytes.specs.Cursors.{text_of, IsStart};

use char_traits::is_breakz;
use error::{Ending, Fault, Refusal};
use input::borrowed::BorrowedInput;
use input::made::Made;
use input::stepped::Stepped;
use input::{Input, Marker};
use text_bytes::Cursor;

/// The window that can always be had: 128, as the Rust's slice reports. All of the text is at hand,
/// so any window could be had; but a scanner may keep room for as many characters as it is told
/// here, and it goes line by line. So this is the longest line to expect, and not the text's length.
const MOST: usize = 128;

/// A text that is read from a place on, where its characters are ahead.
#[derive(Drop)]
pub struct StrInput<'a> {
    at: Cursor<'a>,
    window: usize,
    ghost short: { length (text_of at) ≤ text_limit },
}

impl<'a> StrInput<'a> {
    ghost use Rattle.str_input.specs.Text.{Opens};

    /// A text of which all is ahead.
    fn at_start(at: Cursor<'a>) -> StrInput<'a>
        requires { IsStart (text_of at) at }
        ensures { Opens (text_of at.entry) result }
    {
        StrInput { at, window: 0 }
    }

    /// The empty text.
    pub fn new() -> StrInput<'a>
        ensures { Opens [] result }
    {
        StrInput::at_start(Cursor::empty())
    }

    /// Some bytes, if they are a text.
    pub fn of(bytes: &'a [u8]) -> Result<StrInput<'a>, Refusal>
        ensures checked { ChecksText bytes.now (outcome (λ _. []) result) }
        ensures opens { IfOk result (Opens bytes.now) }
    {
        let at = Cursor::start(bytes)?;
        Ok(StrInput::at_start(at))
    }

    /// Puts some bytes in place of the text, if they are a text.
    pub fn load(&mut self, bytes: &'a [u8]) -> Result<(), Refusal>
        ensures checked { ChecksText bytes.now (outcome (λ _. []) result) }
        ensures loads { MatchResult result (λ _. Opens bytes.now self.new)
            (λ _. self.new ≡ self.old) }
    {
        *self = StrInput::of(bytes)?;
        Ok(())
    }

    /// Goes on to a later place.
    fn move_to(&mut self, next: Cursor<'a>)
        requires { text_of next ≡ text_of self.old.at }
        ensures at { self.new.at ≡ next.entry }
        ensures window { self.new.window ≡ self.old.window }
    {
        self.at = next;
    }
}

impl Input for StrInput<'_> {
    ghost use Rattle.str_input.specs.Text.{text_view, text_shown, MovesOn, Widens};
    ghost use Rattle.str_input.specs.Laws.{text_sound, text_faithful, text_wide};

    ghost view = { text_view };

    ghost shown = { text_shown };

    ghost sound = { text_sound };

    ghost faithful = { text_faithful };

    ghost wide = { text_wide };

    fn lookahead(&mut self, count: usize)
        ensures looks { Looks count (text_view self.old) (text_view self.new) }
        ensures widens { Widens count self.old self.new }
    {
        self.window = self.window.max(count);
    }

    fn buflen(&self) -> usize {
        self.window
    }

    fn bufmaxlen(&self) -> usize {
        MOST
    }

    fn raw_read_ch(&mut self) -> char
        ensures reads { Reads result (text_view self.old) (text_view self.new) }
        ensures moves { MovesOn 1 self.old self.new }
    {
        match self.at.first() {
            Some((c, next)) => {
                self.move_to(next);
                c
            }
            None => '\0',
        }
    }

    fn raw_read_non_breakz_ch(&mut self) -> Option<char>
        ensures reads { ReadsInLine result (text_view self.old) (text_view self.new) }
        ensures moves { MovesOn (taken_by result) self.old self.new }
    {
        match self.at.first() {
            Some((c, next)) if !is_breakz(c) => {
                self.move_to(next);
                Some(c)
            }
            _ => None,
        }
    }

    fn skip(&mut self)
        ensures skips { Skips 1 (text_view self.old) (text_view self.new) }
        ensures moves { MovesOn 1 self.old self.new }
    {
        self.skip_n(1);
    }

    fn skip_n(&mut self, count: usize)
        ensures skips { Skips count (text_view self.old) (text_view self.new) }
        ensures moves { MovesOn count self.old self.new }
    {
        let end = self.at.past(count);
        self.move_to(end);
    }

    fn next_ch(&mut self) -> Option<char>
        ensures tells { PeeksNext result (text_view self.old) (text_view self.new) }
        ensures moves { MovesOn 0 self.old self.new }
    {
        self.at.first().map(|(c, _)| c)
    }

    fn peek_nth(&self, n: usize) -> char {
        self.at.nth(n)
    }

    fn next_is_z(&self) -> bool {
        self.at.is_end()
    }

    fn next_are(&self, wanted: &[char]) -> Result<bool, Refusal> {
        Ok(self.at.begins_with(wanted))
    }

    fn next_marker(&self) -> Result<Option<Marker>, Refusal> {
        Ok(self.at.marker())
    }

    fn take_source_error(&mut self) -> Option<Fault>
        ensures asks { TakesFault result (text_view self.old) (text_view self.new) }
        ensures moves { MovesOn 0 self.old self.new }
    {
        self.met_fault()
    }

    fn met_ending(&self) -> Option<Ending> {
        Some(Ok(()))
    }
}

impl<'a> BorrowedInput<'a> for StrInput<'a> {
    ghost use Rattle.str_input.specs.Text.{LendsPart};

    ghost Lends = { LendsPart };

    /// A part of the whole text, also of what was taken. None where the bounds are reversed, beyond
    /// the text or off a character boundary.
    fn slice_borrowed(&self, start: usize, end: usize) -> Option<&'a [u8]> {
        self.at.part(start, end)
    }
}

impl<'a> Made<&'a [u8]> for StrInput<'a> {
    ghost use Rattle.str_input.specs.Text.{text_making, text_view, Opens};

    ghost making = { λ text. text_making text.now };

    ghost Answers = { λ text answer. ChecksText text.now answer };

    ghost placed = { λ _. tt };

    fn make(of: &'a [u8]) -> Result<StrInput<'a>, Refusal>
        ensures answers { ChecksText of.now (outcome (λ _. []) result) }
        ensures fresh { IfOk result (λ x. IsFresh (text_making of.now) (text_view x)) }
        ensures opens { IfOk result (Opens of.now) }
    {
        StrInput::of(of)
    }
}

impl Stepped for StrInput<'_> {
    ghost stepped = { λ _. None };

    fn steps(&self) -> Option<u64> {
        None
    }
}

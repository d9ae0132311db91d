//! The ring over a source that always ends clean.

ghost use Rattle.std.specs.Prelude.{◌≡◌, ◌<◌, ◌≤◌, min, max, true, false, cond, [], length, is_some, Some, None, IfOk};
ghost use Rattle.error.specs.Numbers.{outcome};
ghost use Rattle.input.specs.View.{IsFresh};
ghost use Rattle.input.specs.Calls.{Looks, Reads, ReadsInLine, Skips, PeeksNext, TakesNext, TakesFault, none_left, taken_by};
ghost use Rattle.buffered.specs.Ring.{queue};
ghost use Rattle.buffered.specs.Feed.{held_count, Feeds, Frugal};

use crate::feed::Feed;
use crate::ring::PLACES;
use char_traits::is_breakz;
use error::{Ending, Fault, Refusal};
use input::borrowed::BorrowedInput;
use input::made::Made;
use input::shows::Shows;
use input::stepped::Stepped;
use input::{Input, Marker};
use runs::Scan;
use source::{Counted, Source};

/// An input over a source of any kind. It draws a character only when a lookahead or a call needs it, and holds no more than
/// its window shows.
#[derive(Drop)]
pub struct BufferedInput<S> {
    feed: Feed<S>,
    window: usize,
    ghost filled: { held_count feed < window → feed.met ≡ true },
    ghost narrow: { window ≤ 16 },
    // no more is held than the window shows, or the one character that was looked at with no window
    ghost few: { held_count feed ≤ max window 1 },
}

impl<S> BufferedInput<S> {
    /// The source behind the ring, to look at.
    pub fn source(&self) -> &S
        ensures { result.now ≡ self.now.feed.source }
    {
        self.feed.source()
    }

    /// Gives the source back. The characters that the ring holds are lost.
    pub fn into_source(self) -> S
        ensures { result ≡ self.feed.source }
    {
        self.feed.into_source()
    }

    /// Whether the source has ended: then it is not stepped again.
    pub(crate) fn has_met_end(&self) -> bool
        ensures { result ≡ self.now.feed.met }
    {
        self.feed.has_met_end()
    }
}

impl<S: Source> BufferedInput<S> {
    ghost use Rattle.buffered.specs.Buffered.{ring_making, ring_view};

    /// A ring over a source: all of the source's characters are ahead.
    pub fn new(source: S) -> BufferedInput<S>
        ensures fresh { IsFresh (ring_making S.ahead source) (ring_view S.ahead result) }
        ensures source { result.feed.source ≡ source }
        ensures none { queue result.feed.ring ≡ [] }
    {
        BufferedInput {
            feed: Feed::new(source),
            window: 0,
        }
    }

    /// Takes the first character, if one is ahead.
    #[inline(always)]
    fn take(&mut self) -> Option<char>
        ensures takes { TakesNext result (ring_view S.ahead self.old) (ring_view S.ahead self.new) }
        ensures feeds { Feeds S.kept S.ended self.old.feed self.new.feed }
        ensures few { Frugal 1 self.old.window self.old.feed self.new.feed }
    {
        let taken = self.feed.take();
        self.feed.fill(self.window);
        taken
    }
}

impl<S: Source> Input for BufferedInput<S> {
    ghost use Rattle.buffered.specs.Buffered.{ring_view, ring_shown};
    ghost use Rattle.buffered.specs.BufferedLaws.{ring_sound, ring_faithful, sixteen};

    ghost Held = { S };

    ghost view = { ring_view S.ahead };

    ghost shown = { ring_shown };

    ghost sound = { ring_sound S.ahead S.characters S.short };

    ghost faithful = { ring_faithful S.ahead };

    ghost wide = { λ _. sixteen };

    fn lookahead(&mut self, count: usize)
        ensures looks { Looks count (ring_view S.ahead self.old) (ring_view S.ahead self.new) }
        ensures feeds { Feeds S.kept S.ended self.old.feed self.new.feed }
        ensures few { Frugal 0 self.new.window self.old.feed self.new.feed }
    {
        let window = self.window.max(count.min(PLACES));
        self.feed.fill(window);
        self.window = window;
    }

    fn buflen(&self) -> usize {
        self.window
    }

    fn bufmaxlen(&self) -> usize {
        PLACES
    }

    #[inline(always)]
    fn raw_read_ch(&mut self) -> char
        ensures reads { Reads result (ring_view S.ahead self.old) (ring_view S.ahead self.new) }
        ensures feeds { Feeds S.kept S.ended self.old.feed self.new.feed }
        ensures few { Frugal 1 self.old.window self.old.feed self.new.feed }
    {
        self.take().unwrap_or('\0')
    }

    fn raw_read_non_breakz_ch(&mut self) -> Option<char>
        ensures reads { ReadsInLine result (ring_view S.ahead self.old)
            (ring_view S.ahead self.new) }
        ensures feeds { Feeds S.kept S.ended self.old.feed self.new.feed }
        ensures few { Frugal (taken_by result) (cond (is_some result) self.old.window 1)
            self.old.feed self.new.feed }
        ensures keeps { is_some result ≡ false
            → none_left (ring_view S.ahead self.new).ahead ≡ false
            → 1 ≤ held_count self.new.feed }
    {
        self.feed.fill(1);
        match self.feed.held().first() {
            Some(c) if !is_breakz(c) => self.take(),
            _ => None,
        }
    }

    #[inline(always)]
    fn skip(&mut self)
        ensures skips { Skips 1 (ring_view S.ahead self.old) (ring_view S.ahead self.new) }
        ensures feeds { Feeds S.kept S.ended self.old.feed self.new.feed }
        ensures few { Frugal 1 self.old.window self.old.feed self.new.feed }
    {
        let _ = self.take();
    }

    #[tactic(auto, using(input::proofs::Skipping::skips_none))]
    fn skip_n(&mut self, count: usize)
        ensures skips { Skips count (ring_view S.ahead self.old) (ring_view S.ahead self.new) }
        ensures feeds { Feeds S.kept S.ended self.old.feed self.new.feed }
        ensures few { Frugal count self.old.window self.old.feed self.new.feed }
    {
        let mut left = count;
        while left > 0 {
            if self.take().is_none() {
                return;
            }
            left -= 1;
        }
    }

    #[inline(always)]
    fn next_ch(&mut self) -> Option<char>
        ensures tells { PeeksNext result (ring_view S.ahead self.old) (ring_view S.ahead self.new) }
        ensures feeds { Feeds S.kept S.ended self.old.feed self.new.feed }
        ensures few { Frugal 0 1 self.old.feed self.new.feed }
        ensures keeps { is_some result ≡ true → 1 ≤ held_count self.new.feed }
    {
        self.feed.fill(1);
        self.feed.held().first()
    }

    fn peek_nth(&self, n: usize) -> char
        ensures shows { result ≡ (ring_shown self.now).at n }
        ensures past { max self.now.window 1 ≤ n → result ≡ 0 }
    {
        self.feed.held().at(n)
    }

    fn next_is_z(&self) -> bool {
        self.feed.has_met_end() && self.feed.held().is_empty()
    }

    fn next_are(&self, wanted: &[char]) -> Result<bool, Refusal> {
        if self.window < wanted.len() {
            return Err(Refusal::NarrowWindow);
        }
        Ok(self.feed.held().begins_with(wanted))
    }

    fn next_marker(&self) -> Result<Option<Marker>, Refusal> {
        if self.window < 4 {
            return Err(Refusal::NarrowWindow);
        }
        Ok(self.feed.held().marker())
    }

    fn take_source_error(&mut self) -> Option<Fault>
        ensures asks { TakesFault result (ring_view S.ahead self.old) (ring_view S.ahead self.new) }
        ensures rests { self.new ≡ self.old }
    {
        None
    }

    fn met_ending(&self) -> Option<Ending> {
        self.has_met_end().then_some(Ok(()))
    }
}

/// A ring scans character by character: it keeps the bodies of the interface, and promises of a chunk exactly what it takes.
impl<S: Source> Scan for BufferedInput<S> {}

/// A ring keeps no text to lend parts of.
impl<'a, S: Source> BorrowedInput<'a> for BufferedInput<S> {
    ghost Lends = { λ _ _ _ part. part ≡ None };

    fn slice_borrowed(&self, _start: usize, _end: usize) -> Option<&'a [u8]> {
        None
    }
}

impl<S: Source> Made<S> for BufferedInput<S> {
    ghost use Rattle.buffered.specs.Buffered.{ring_making, ring_view};

    ghost making = { ring_making S.ahead };

    ghost Answers = { λ _ answer. answer ≡ (0, []) };

    ghost placed = { λ _. tt };

    fn make(of: S) -> Result<BufferedInput<S>, Refusal>
        ensures answers { outcome (λ _. []) result ≡ (0, []) }
        ensures fresh { IfOk result (λ x. IsFresh (ring_making S.ahead of) (ring_view S.ahead x)) }
        ensures source { IfOk result (λ x. x.feed.source ≡ of) }
        ensures none { IfOk result (λ x. queue x.feed.ring ≡ []) }
    {
        Ok(BufferedInput::new(of))
    }
}

impl<S: Source> Stepped for BufferedInput<Counted<S>> {
    ghost stepped = { λ x. Some x.feed.source.steps };

    fn steps(&self) -> Option<u64> {
        Some(self.source().steps())
    }
}

//! The ring over a source that may fail. It is the only ring over the adapter, and its ending is the failing source's.

ghost use Rattle.std.specs.Prelude.{◌≡◌, ◌≤◌, max, true, false, cond, [], is_some, Some, None, IfOk};
ghost use Rattle.error.specs.Numbers.{outcome};
ghost use Rattle.input.specs.View.{IsFresh};
ghost use Rattle.input.specs.Calls.{Looks, Reads, ReadsInLine, Skips, PeeksNext, TakesFault, none_left, taken_by};
ghost use Rattle.buffered.specs.Ring.{queue};
ghost use Rattle.buffered.specs.Feed.{held_count, Frugal};
ghost use Rattle.buffered.specs.Buffered.{ring_shown};
ghost use Rattle.buffered.specs.BufferedLaws.{sixteen};

use crate::buffered_input::BufferedInput;
use crate::chars::FallibleChars;
use error::{Ending, Fault, Refusal};
use input::borrowed::BorrowedInput;
use input::made::Made;
use input::stepped::Stepped;
use input::{Input, Marker};
use runs::Scan;
use source::{Counted, FallibleSource};

/// An input over a failing source of any kind. It draws as the ring over a clean source does, and tells the source's fault
/// once, when that is met.
#[derive(Drop)]
pub struct FallibleBufferedInput<F: FallibleSource> {
    inner: BufferedInput<FallibleChars<F>>,
    told: bool,
    ghost ends: { inner.feed.met ≡ true → is_some inner.feed.source.ended ≡ true },
}

impl<F: FallibleSource> FallibleBufferedInput<F> {
    ghost use Rattle.buffered.specs.Fallible.{failing_making, failing_view};

    /// A ring over a failing source: all of its characters are ahead, and its ending is the source's.
    pub fn new(source: F) -> FallibleBufferedInput<F>
        ensures fresh { IsFresh
            (failing_making F.ahead F.ending F.given source)
            (failing_view result) }
        ensures source { result.inner.feed.source.below ≡ source }
        ensures unmet { result.inner.feed.source.ended ≡ None }
        ensures none { queue result.inner.feed.ring ≡ [] }
    {
        FallibleBufferedInput {
            inner: BufferedInput::new(FallibleChars::new(source)),
            told: false,
        }
    }

    /// The source behind the ring, to look at.
    pub fn source(&self) -> &F
        ensures { result.now ≡ self.now.inner.feed.source.below }
    {
        self.inner.source().below()
    }

    /// Gives the source back. The characters that the ring holds are lost, and so is an ending that it met.
    pub fn into_source(self) -> F
        ensures { result ≡ self.inner.feed.source.below }
    {
        self.inner.into_source().into_below()
    }
}

impl<F: FallibleSource> Input for FallibleBufferedInput<F> {
    ghost use Rattle.buffered.specs.Fallible.{failing_view};
    ghost use Rattle.buffered.specs.FallibleLaws.{failing_sound, failing_faithful};

    ghost Held = { F };

    ghost view = { failing_view };

    ghost shown = { λ x. ring_shown x.inner };

    ghost sound = { failing_sound };

    ghost faithful = { failing_faithful };

    ghost wide = { λ _. sixteen };

    fn lookahead(&mut self, count: usize)
        ensures looks { Looks count (failing_view self.old) (failing_view self.new) }
        ensures few { Frugal 0 self.new.inner.window self.old.inner.feed self.new.inner.feed }
    {
        self.inner.lookahead(count);
    }

    fn buflen(&self) -> usize {
        self.inner.buflen()
    }

    fn bufmaxlen(&self) -> usize {
        self.inner.bufmaxlen()
    }

    #[inline(always)]
    fn raw_read_ch(&mut self) -> char
        ensures reads { Reads result (failing_view self.old) (failing_view self.new) }
        ensures few { Frugal 1 self.old.inner.window self.old.inner.feed self.new.inner.feed }
    {
        self.inner.raw_read_ch()
    }

    fn raw_read_non_breakz_ch(&mut self) -> Option<char>
        ensures reads { ReadsInLine result (failing_view self.old) (failing_view self.new) }
        ensures few { Frugal (taken_by result) (cond (is_some result) self.old.inner.window 1)
            self.old.inner.feed self.new.inner.feed }
        ensures keeps { is_some result ≡ false
            → none_left (failing_view self.new).ahead ≡ false
            → 1 ≤ held_count self.new.inner.feed }
    {
        self.inner.raw_read_non_breakz_ch()
    }

    #[inline(always)]
    fn skip(&mut self)
        ensures skips { Skips 1 (failing_view self.old) (failing_view self.new) }
        ensures few { Frugal 1 self.old.inner.window self.old.inner.feed self.new.inner.feed }
    {
        self.inner.skip();
    }

    fn skip_n(&mut self, count: usize)
        ensures skips { Skips count (failing_view self.old) (failing_view self.new) }
        ensures few { Frugal count self.old.inner.window self.old.inner.feed self.new.inner.feed }
    {
        self.inner.skip_n(count);
    }

    #[inline(always)]
    fn next_ch(&mut self) -> Option<char>
        ensures tells { PeeksNext result (failing_view self.old) (failing_view self.new) }
        ensures few { Frugal 0 1 self.old.inner.feed self.new.inner.feed }
        ensures keeps { is_some result ≡ true → 1 ≤ held_count self.new.inner.feed }
    {
        self.inner.next_ch()
    }

    fn peek_nth(&self, n: usize) -> char
        ensures shows { result ≡ (ring_shown self.now.inner).at n }
        ensures past { max self.now.inner.window 1 ≤ n → result ≡ 0 }
    {
        self.inner.peek_nth(n)
    }

    fn next_is_z(&self) -> bool {
        self.inner.next_is_z()
    }

    fn next_are(&self, wanted: &[char]) -> Result<bool, Refusal> {
        self.inner.next_are(wanted)
    }

    fn next_marker(&self) -> Result<Option<Marker>, Refusal> {
        self.inner.next_marker()
    }

    fn take_source_error(&mut self) -> Option<Fault>
        ensures asks { TakesFault result (failing_view self.old) (failing_view self.new) }
        ensures inner { self.new.inner ≡ self.old.inner }
    {
        if self.told {
            return None;
        }
        let fault = self.met_fault();
        self.told = fault.is_some();
        fault
    }

    fn met_ending(&self) -> Option<Ending> {
        if self.inner.has_met_end() {
            self.inner.source().kept_ending()
        } else {
            None
        }
    }
}

/// A ring scans character by character: it keeps the bodies of the interface, and promises of a chunk exactly what it takes.
impl<F: FallibleSource> Scan for FallibleBufferedInput<F> {}

/// A ring keeps no text to lend parts of.
impl<'a, F: FallibleSource> BorrowedInput<'a> for FallibleBufferedInput<F> {
    ghost Lends = { λ _ _ _ part. part ≡ None };

    fn slice_borrowed(&self, _start: usize, _end: usize) -> Option<&'a [u8]> {
        None
    }
}

impl<F: FallibleSource> Made<F> for FallibleBufferedInput<F> {
    ghost use Rattle.buffered.specs.Fallible.{failing_making, failing_view};

    ghost making = { failing_making F.ahead F.ending F.given };

    ghost Answers = { λ _ answer. answer ≡ (0, []) };

    ghost placed = { F.placed };

    fn make(of: F) -> Result<FallibleBufferedInput<F>, Refusal>
        ensures answers { outcome (λ _. []) result ≡ (0, []) }
        ensures fresh { IfOk result (λ x. IsFresh
            (failing_making F.ahead F.ending F.given of)
            (failing_view x)) }
        ensures source { IfOk result (λ x. x.inner.feed.source.below ≡ of) }
        ensures unmet { IfOk result (λ x. x.inner.feed.source.ended ≡ None) }
        ensures none { IfOk result (λ x. queue x.inner.feed.ring ≡ []) }
    {
        Ok(FallibleBufferedInput::new(of))
    }
}

impl<F: FallibleSource> Stepped for FallibleBufferedInput<Counted<F>> {
    ghost stepped = { λ x. Some x.inner.feed.source.below.steps };

    fn steps(&self) -> Option<u64> {
        Some(self.source().steps())
    }
}

//! A wrapper that owns its input: it counts the calls that may change it.

ghost use Rattle.std.specs.Prelude.{◌≡◌, ◌+◌, ◌-◌, ◌^◌, min};

use reader::{Ending, Fault, Input, Marker, Refusal, Scan};

/// An input of any kind, and how many calls were made that may change it, as a test shows. It means what
/// its input means.
#[derive(Drop)]
pub struct Tally<I> {
    input: I,
    calls: u64,
}

impl<I> Tally<I> {
    /// No calls yet.
    pub fn new(input: I) -> Tally<I>
        ensures input { result.input ≡ input }
        ensures calls { result.calls ≡ 0 }
    {
        Tally { input, calls: 0 }
    }

    /// How many calls were made. The count stays at the greatest number once it is there.
    pub fn calls(&self) -> u64
        ensures { result ≡ self.now.calls }
    {
        self.calls
    }

    /// Gives the input back.
    pub fn into_input(self) -> I
        ensures { result ≡ self.input }
    {
        self.input
    }

    fn count(&mut self)
        ensures input { self.new.input ≡ self.old.input }
        ensures more { self.new.calls ≡ min (2 ^ 64 - 1) (self.old.calls + 1) }
    {
        self.calls = self.calls.saturating_add(1);
    }
}

impl<I: Input> Input for Tally<I> {
    /// The type of what it holds below it, which keeps its value once the ending is met.
    ghost Held = { I.Held };

    /// What it means: the characters ahead, the window, the ending, and the rest of a view.
    ghost view = { λ x. I.view x.input };

    /// What its peeks and tests answer.
    ghost shown = { λ x. I.shown x.input };

    /// A proof that every value's view is sound.
    ghost sound = { λ x. I.sound x.input };

    /// A proof that peeks and tests show what is ahead, as far as the window goes.
    ghost faithful = { λ x. I.faithful x.input };

    /// A proof that the window can be 16 at least.
    ghost wide = { λ x. I.wide x.input };

    fn lookahead(&mut self, count: usize) {
        self.count();
        self.input.lookahead(count);
    }

    fn buflen(&self) -> usize {
        self.input.buflen()
    }

    fn bufmaxlen(&self) -> usize {
        self.input.bufmaxlen()
    }

    fn raw_read_ch(&mut self) -> char {
        self.count();
        self.input.raw_read_ch()
    }

    fn raw_read_non_breakz_ch(&mut self) -> Option<char> {
        self.count();
        self.input.raw_read_non_breakz_ch()
    }

    fn skip(&mut self) {
        self.count();
        self.input.skip();
    }

    fn skip_n(&mut self, count: usize) {
        self.count();
        self.input.skip_n(count);
    }

    fn next_ch(&mut self) -> Option<char> {
        self.count();
        self.input.next_ch()
    }

    fn peek_nth(&self, n: usize) -> char {
        self.input.peek_nth(n)
    }

    fn next_is_z(&self) -> bool {
        self.input.next_is_z()
    }

    fn next_are(&self, wanted: &[char]) -> Result<bool, Refusal> {
        self.input.next_are(wanted)
    }

    fn next_marker(&self) -> Result<Option<Marker>, Refusal> {
        self.input.next_marker()
    }

    fn take_source_error(&mut self) -> Option<Fault> {
        self.count();
        self.input.take_source_error()
    }

    fn met_ending(&self) -> Option<Ending> {
        self.input.met_ending()
    }
}

/// One scan is handed on. The others go character by character by the calls above; to keep an input's own, hand them on alike.
impl<I: Scan> Scan for Tally<I> {
    fn skip_while_blank(&mut self) -> usize {
        self.count();
        self.input.skip_while_blank()
    }
}

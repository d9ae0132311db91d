//! A wrapper that borrows its input: whoever lent it goes on with it afterwards.

ghost use Rattle.std.specs.Prelude.{◌≡◌};
ghost use Rattle.reader.specs.Calls.{Skips};

use reader::{Ending, Fault, Input, Marker, Refusal, Scan};

/// An input of any kind that is lent. It means what that input means.
#[derive(Drop)]
pub struct Lent<'a, I> {
    input: &'a mut I,
}

impl<'a, I> Lent<'a, I> {
    /// Over an input that is given back when this one goes.
    pub fn new(input: &'a mut I) -> Lent<'a, I>
        ensures input { result.input.now ≡ input.old }
        ensures loan { result.input.ghost_name ≡ input.entry.ghost_name }
    {
        Lent { input }
    }
}

impl<I: Input> Input for Lent<'_, I> {
    ghost Held = { I.Held };

    /// `now` is the value behind the loan.
    ghost view = { λ x. I.view x.input.now };

    ghost shown = { λ x. I.shown x.input.now };

    ghost sound = { λ x. I.sound x.input.now };

    ghost faithful = { λ x. I.faithful x.input.now };

    ghost wide = { λ x. I.wide x.input.now };

    fn lookahead(&mut self, count: usize) {
        self.input.lookahead(count);
    }

    fn buflen(&self) -> usize {
        self.input.buflen()
    }

    fn bufmaxlen(&self) -> usize {
        self.input.bufmaxlen()
    }

    fn raw_read_ch(&mut self) -> char {
        self.input.raw_read_ch()
    }

    fn raw_read_non_breakz_ch(&mut self) -> Option<char> {
        self.input.raw_read_non_breakz_ch()
    }

    /// That the loan stays the one that it was is for whoever lent the input: by it `skip_lent` knows what came of it.
    fn skip(&mut self)
        ensures skips { Skips 1 (I.view self.old.input.now) (I.view self.new.input.now) }
        ensures loan { self.new.input.ghost_name ≡ self.old.input.ghost_name }
    {
        self.input.skip();
    }

    fn skip_n(&mut self, count: usize) {
        self.input.skip_n(count);
    }

    fn next_ch(&mut self) -> Option<char> {
        self.input.next_ch()
    }

    fn peek_nth(&self, n: usize) -> char {
        self.input.peek_nth(n)
    }

    fn next_is_z(&self) -> bool {
        self.input.next_is_z()
    }

    fn next_are(&self, wanted: &[char]) -> Result<bool, Refusal> {
        self.input.next_are(wanted)
    }

    fn next_marker(&self) -> Result<Option<Marker>, Refusal> {
        self.input.next_marker()
    }

    fn take_source_error(&mut self) -> Option<Fault> {
        self.input.take_source_error()
    }

    fn met_ending(&self) -> Option<Ending> {
        self.input.met_ending()
    }
}

impl<I: Input> Scan for Lent<'_, I> {}

/// Skips one character by a loan.
pub fn skip_lent<I: Input>(input: &mut I)
    ensures { Skips 1 (I.view input.old) (I.view input.new) }
{
    Lent::new(input).skip();
}

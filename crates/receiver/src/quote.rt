//! A set of characters that is told by a value.

ghost use Rattle.std.specs.Prelude.{◌≡◌};
ghost use Rattle.receiver.specs.Quote.{until_quote};
ghost use Rattle.receiver.specs.QuoteLaws.{until_nul};

use char_traits::class::Class;
use char_traits::is_breakz;

/// The characters of a quoted scalar up to the quote that opened it, or a breakz.
#[derive(Clone, Copy)]
pub struct UntilQuote {
    quote: char,
}

impl UntilQuote {
    /// Up to this quote.
    pub fn new(quote: char) -> UntilQuote
        ensures { result.quote ≡ quote }
    {
        UntilQuote { quote }
    }
}

impl Class for UntilQuote {
    ghost member = { λ class. until_quote class.quote };

    ghost without_nul = { λ class. until_nul class.quote };

    fn has(&self, c: char) -> bool {
        c != self.quote && !is_breakz(c)
    }
}

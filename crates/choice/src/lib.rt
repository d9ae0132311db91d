//! An input that is of one kind or of another, by what was plugged in.
#![tactic(auto)]

ghost use Rattle.std.specs.Prelude.{◌⊎◌};
ghost use Rattle.choice.specs.Either.{by_one, one_view, one_sound, one_faithful, one_view_wide};

use error::{Ending, Fault, Refusal};
use input::borrowed::BorrowedInput;
use input::{Input, Marker};
use runs::Scan;

/// One of two inputs. The most that its window can be, and how it keeps its window and its ending,
/// are those of the one that it is.
#[derive(Drop)]
pub enum OneOf<L, R> {
    /// The first kind.
    First(L),
    /// The second kind.
    Second(R),
}

impl<L: Input, R: Input> Input for OneOf<L, R> {
    ghost Held = { L.Held ⊎ R.Held };

    ghost view = { one_view L.view R.view };

    ghost shown = { by_one L.shown R.shown };

    ghost sound = { one_sound L.view R.view L.sound R.sound };

    ghost faithful = { one_faithful L.view R.view L.shown R.shown L.faithful R.faithful };

    ghost wide = { one_view_wide L.view R.view L.wide R.wide };

    fn lookahead(&mut self, count: usize) {
        match self {
            OneOf::First(input) => input.lookahead(count),
            OneOf::Second(input) => input.lookahead(count),
        }
    }

    fn buflen(&self) -> usize {
        match self {
            OneOf::First(input) => input.buflen(),
            OneOf::Second(input) => input.buflen(),
        }
    }

    fn bufmaxlen(&self) -> usize {
        match self {
            OneOf::First(input) => input.bufmaxlen(),
            OneOf::Second(input) => input.bufmaxlen(),
        }
    }

    fn raw_read_ch(&mut self) -> char {
        match self {
            OneOf::First(input) => input.raw_read_ch(),
            OneOf::Second(input) => input.raw_read_ch(),
        }
    }

    fn raw_read_non_breakz_ch(&mut self) -> Option<char> {
        match self {
            OneOf::First(input) => input.raw_read_non_breakz_ch(),
            OneOf::Second(input) => input.raw_read_non_breakz_ch(),
        }
    }

    fn skip(&mut self) {
        match self {
            OneOf::First(input) => input.skip(),
            OneOf::Second(input) => input.skip(),
        }
    }

    fn skip_n(&mut self, count: usize) {
        match self {
            OneOf::First(input) => input.skip_n(count),
            OneOf::Second(input) => input.skip_n(count),
        }
    }

    fn next_ch(&mut self) -> Option<char> {
        match self {
            OneOf::First(input) => input.next_ch(),
            OneOf::Second(input) => input.next_ch(),
        }
    }

    fn peek_nth(&self, n: usize) -> char {
        match self {
            OneOf::First(input) => input.peek_nth(n),
            OneOf::Second(input) => input.peek_nth(n),
        }
    }

    fn next_is_z(&self) -> bool {
        match self {
            OneOf::First(input) => input.next_is_z(),
            OneOf::Second(input) => input.next_is_z(),
        }
    }

    fn next_are(&self, wanted: &[char]) -> Result<bool, Refusal> {
        match self {
            OneOf::First(input) => input.next_are(wanted),
            OneOf::Second(input) => input.next_are(wanted),
        }
    }

    fn next_marker(&self) -> Result<Option<Marker>, Refusal> {
        match self {
            OneOf::First(input) => input.next_marker(),
            OneOf::Second(input) => input.next_marker(),
        }
    }

    fn take_source_error(&mut self) -> Option<Fault> {
        match self {
            OneOf::First(input) => input.take_source_error(),
            OneOf::Second(input) => input.take_source_error(),
        }
    }

    fn met_ending(&self) -> Option<Ending> {
        match self {
            OneOf::First(input) => input.met_ending(),
            OneOf::Second(input) => input.met_ending(),
        }
    }
}

/// It scans character by character, whichever it is.
impl<L: Input, R: Input> Scan for OneOf<L, R> {}

/// It lends what the one that it is lends.
impl<'a, L: BorrowedInput<'a>, R: BorrowedInput<'a>> BorrowedInput<'a> for OneOf<L, R> {
    ghost use Rattle.choice.specs.Either.{LentByOne};

    ghost Lends = { LentByOne L.Lends R.Lends };

    fn slice_borrowed(&self, start: usize, end: usize) -> Option<&'a [u8]> {
        match self {
            OneOf::First(input) => input.slice_borrowed(start, end),
            OneOf::Second(input) => input.slice_borrowed(start, end),
        }
    }
}

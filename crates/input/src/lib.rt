//! What a scanner reads from.
#![tactic(auto)]

ghost use Rattle.std.specs.Prelude.{◌≡◌, ◌≤◌, true, if◌then◌else◌, Some, None};
ghost use Rattle.error.specs.Numbers.{fault_of, outcome};
ghost use Rattle.input.specs.View.{View, IsSound};
ghost use Rattle.input.specs.Calls.{Looks, Reads, ReadsInLine, Skips, PeeksNext, TakesFault};
ghost use Rattle.input.specs.Tests.{flag, mark, Shown, IsFaithful, in_window};

use error::{Ending, Fault, Refusal};

pub mod borrowed;
pub mod calls;
pub mod made;
pub mod shows;
pub mod stepped;
pub mod ticket;

/// The end of a reading.
#[derive(Clone, Copy, Debug, PartialEq, Eq)]
pub enum Closing {
    /// Characters are ahead.
    Left,
    /// Nothing is ahead, and the source failed.
    Failed(Fault),
    /// Nothing is ahead, and the ending is clean.
    Whole,
}

/// A document marker.
#[derive(Clone, Copy)]
pub enum Marker {
    /// `---`
    Start,
    /// `...`
    End,
}

/// An input. Its meaning is its view; what it shows beyond its window is each kind's own.
///
/// A kind of input says by the ghost members what its values mean. Each call then owes what its
/// clauses say of the view before it and after it.
pub trait Input {
    /// The type of what it holds below it, for a ring its source: once the ending is met, no call
    /// changes its value. `Unit`, if it holds nothing that one would ask about.
    ghost Held: { Type 0 } = { Unit {0} };

    /// What a value means: the characters ahead, the window, the ending, whether that is met and
    /// told, the manner, and what is held.
    ghost view: { Self → View Held };

    /// What its peeks and tests answer, at every place and window.
    ghost shown: { Self → Shown };

    /// A law: what is ahead are characters, and no more than a text may have, beside 16 that are
    /// held; where less is ahead than the window, the ending is met.
    ghost sound: { (x : Self) → IsSound (view x) };

    /// A law: within the window it shows what is ahead, with NUL past the end.
    ghost faithful: { (x : Self) → IsFaithful (shown x) (view x) };

    /// A law: a window of 16 can always be had.
    ghost wide: { (x : Self) → 16 ≤ (view x).manner.most };

    /// Raises the window to the count, as far as it goes. What is ahead stays.
    fn lookahead(&mut self, count: usize)
        ensures looks { Looks count (view self.old) (view self.new) };

    /// The window.
    fn buflen(&self) -> usize
        ensures { result ≡ (view self.now).window };

    /// The window that a lookahead can always have: 16 or more.
    fn bufmaxlen(&self) -> usize
        ensures { result ≡ (view self.now).manner.most };

    /// Takes the first character; at the end gives NUL and takes nothing.
    fn raw_read_ch(&mut self) -> char
        ensures { Reads result (view self.old) (view self.new) };

    /// Takes one character and tells it; before a breakz and at the end it takes nothing, and tells so.
    fn raw_read_non_breakz_ch(&mut self) -> Option<char>
        ensures { ReadsInLine result (view self.old) (view self.new) };

    /// Takes one character or, at the end, nothing.
    fn skip(&mut self)
        ensures { Skips 1 (view self.old) (view self.new) };

    /// Takes so many characters, or all that are ahead if these are fewer.
    fn skip_n(&mut self, count: usize)
        ensures { Skips count (view self.old) (view self.new) };

    /// The next character, or none at the end. It stays ahead, and the window as it was.
    fn next_ch(&mut self) -> Option<char>
        ensures { PeeksNext result (view self.old) (view self.new) };

    /// The character that is shown at a place: within the window the one ahead, or NUL if there is none.
    fn peek_nth(&self, n: usize) -> char
        ensures { result ≡ (shown self.now).at n };

    /// Whether nothing is ahead, with a window of 1 or more.
    fn next_is_z(&self) -> bool
        ensures { result ≡ (shown self.now).at_end };

    /// Whether the next characters are those wanted. Refusal 4 only below a window of that many.
    fn next_are(&self, wanted: &[char]) -> Result<bool, Refusal>
        ensures { outcome flag result ≡ in_window flag ((shown self.now).matches wanted.now) };

    /// The document marker that is next, if one is. Refusal 4 only below a window of 4.
    fn next_marker(&self) -> Result<Option<Marker>, Refusal>
        ensures { outcome mark result ≡ in_window mark (shown self.now).marker };

    /// The fault, if the ending is met and its fault was not told yet.
    fn take_source_error(&mut self) -> Option<Fault>
        ensures { TakesFault result (view self.old) (view self.new) };

    /// The ending, once it is met.
    fn met_ending(&self) -> Option<Ending>
        ensures { result ≡ (if (view self.now).met then Some (view self.now).ending else None) };

    /// The fault of an ending that is met, told before or not.
    fn met_fault(&self) -> Option<Fault>
        ensures { result ≡ (if (view self.now).met then fault_of (view self.now).ending else None) }
    {
        self.met_ending()?.err()
    }
}

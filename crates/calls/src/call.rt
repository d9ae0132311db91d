//! Calls and answers as values.

ghost use Rattle.std.specs.Prelude.{◌≡◌, false, [], refl};
ghost use Rattle.calls.specs.Entries.{room_bytes};

use char_traits::class::Class;
use error::{Fault, Refusal};
use input::Closing;
use runs::{Fetched, SkipTabs, WhitespaceResult};

/// A test of the next character by its class.
#[derive(Clone, Copy)]
pub enum ClassTest {
    BlankOrBreak,
    BlankOrBreakz,
    Blank,
    Break,
    Breakz,
    Flow,
    Digit,
    Alpha,
}

/// A test for a document marker.
#[derive(Clone, Copy)]
pub enum MarkerTest {
    Indicator,
    Start,
    End,
}

/// A test of what is ahead.
#[derive(Clone, Copy)]
pub enum Test {
    Z,
    Class(ClassTest),
    CharIs(u32),
    NthIs(usize, u32),
    TwoAre(u32, u32),
    ThreeAre(u32, u32, u32),
    Marker(MarkerTest),
    /// Whether a plain scalar goes on, in flow or not.
    PlainScalar(bool),
}

/// The class of a list whose calls name none: it has no character.
#[derive(Clone, Copy)]
pub struct NoClass;

impl Class for NoClass {
    ghost member = { λ _ _. false };

    ghost without_nul = { λ _. refl };

    fn has(&self, _c: char) -> bool {
        false
    }
}

/// A skip of a whole run, which it counts.
#[derive(Clone, Copy)]
pub enum SkipCall<C> {
    /// Over a class of the list's own.
    While(C),
    WhileBlank,
    WhileNonBreakz,
    /// In flow or not.
    PlainRun(bool),
}

/// A fetch of a whole run.
#[derive(Clone, Copy)]
pub enum FetchCall<C> {
    /// Over a class of the list's own.
    While(C),
    WhileIsAlpha,
    WhileIsYamlNonSpace,
    BlockScalarLine,
    /// In flow or not.
    PlainRun(bool),
}

/// A scanning call.
#[derive(Clone, Copy)]
pub enum ScanCall<C> {
    SkipRun(SkipCall<C>),
    FetchRun(FetchCall<C>),
    SkipWsToEol(SkipTabs),
    SkipWsToEolBlanks(SkipTabs),
    /// A count, and whether in flow.
    SkipPlainScalarChunk(usize, bool),
    /// A count, and whether in flow.
    FetchPlainScalarChunk(usize, bool),
}

/// A call of an input. Its runs may be of the built classes, or of the list's own.
#[derive(Clone, Copy)]
pub enum Call<C> {
    Lookahead(usize),
    /// A lookahead that one of two lists has and the other has not.
    Added(usize),
    LookCh,
    NextCh,
    Read,
    ReadNonBreakz,
    Skip,
    SkipN(usize),
    Peek,
    PeekNth(usize),
    Test(Test),
    Scan(ScanCall<C>),
    TakeSourceError,
    Open,
    Close,
}

impl<C: Copy> Call<C> {
    ghost use Rattle.calls.specs.Kinds.{kind_of};

    /// Whether the call brings a room.
    pub fn fetches(self) -> bool
        ensures { result ≡ (kind_of self).fetches }
    {
        matches!(
            self,
            Call::Scan(ScanCall::FetchRun(_) | ScanCall::FetchPlainScalarChunk(_, _))
        )
    }
}

/// What a call answers.
#[derive(Clone, Copy)]
pub enum Answer {
    Nothing,
    Character(char),
    Next(Option<char>),
    Tested(Result<bool, Refusal>),
    Asked(Option<Fault>),
    Closed(Closing),
    Count(usize),
    Fetch(Fetched),
    Blanks(usize, WhitespaceResult),
    ToEol(usize, Result<WhitespaceResult, Refusal>),
    SkippedChunk(bool, usize),
    FetchedChunk(bool, Fetched),
}

impl Answer {
    ghost use Rattle.calls.specs.Entries.{filled_after};

    /// How many bytes of the room are filled after the call, if so many were before it.
    pub fn filled_after(self, filled: usize) -> usize
        ensures { result ≡ filled_after filled self }
    {
        match self {
            Answer::Fetch(fetched) | Answer::FetchedChunk(_, fetched) => fetched.filled,
            _ => filled,
        }
    }
}

/// One call of a list with the room that it brings, if it is a fetch, and its answer once it was
/// made.
#[derive(Drop)]
pub struct Step<C> {
    pub call: Call<C>,
    /// None is an empty room.
    pub room: Option<Vec<u8>>,
    /// How many bytes of the room are filled.
    pub filled: usize,
    pub answer: Answer,
}

impl<C: Copy> Step<C> {
    /// A call that is still to be made, and brings no room.
    pub fn new(call: Call<C>) -> Step<C>
        ensures call { result.call ≡ call }
        ensures room { room_bytes result.room ≡ [] }
        ensures filled { result.filled ≡ 0 }
    {
        Step {
            call,
            room: None,
            filled: 0,
            answer: Answer::Nothing,
        }
    }

    /// A call that is still to be made, with the room that it brings, of which so many bytes are
    /// filled.
    pub fn with_room(call: Call<C>, room: Vec<u8>, filled: usize) -> Step<C>
        ensures call { result.call ≡ call }
        ensures room { room_bytes result.room ≡ room.items }
        ensures filled { result.filled ≡ filled }
    {
        Step {
            call,
            room: Some(room),
            filled,
            answer: Answer::Nothing,
        }
    }
}

/// One call of a list that brings no room, and its answer once it was made. A fetch of such a list
/// has an empty room.
#[derive(Clone, Copy)]
pub struct RoomlessStep<C> {
    pub call: Call<C>,
    pub answer: Answer,
}

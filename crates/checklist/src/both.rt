//! A text by card and by cable: read to its end, and scanned at its limits.

ghost use Rattle.std.specs.Prelude.{◌≡◌, [], IfOk, MatchResult};
ghost use Rattle.std.specs.Str.{chars};
ghost use Rattle.error.specs.Numbers.{outcome};
ghost use Rattle.utf8.specs.Checking.{ChecksText};
ghost use Rattle.checklist.specs.Lines.{start_at, hash_at, line_ends};
ghost use Rattle.checklist.specs.Both.{OnBoth, WholeText, RefusedFor};

use crate::readings::{Taken, read_out};
use crate::scans::{count_line_ends, finds_start, leaves_hash};
use buffered::FallibleBufferedInput;
use error::Refusal;
use source::ByteChars;
use std::alloc::{AllocError, Global};
use str_input::StrInput;

/// One text on the card and on the cable, of which nothing was taken yet.
#[derive(Drop)]
pub struct Sides<'a> {
    card: StrInput<'a>,
    cable: FallibleBufferedInput<ByteChars<'a>>,
}

impl<'a> Sides<'a> {
    /// A text, unless its bytes are refused: 1 if they are too many, 2 at the first that is ill-formed.
    pub fn of(bytes: &'a [u8]) -> Result<Sides<'a>, Refusal>
        ensures checked { ChecksText bytes.now (outcome (λ _. []) result) }
        ensures both { IfOk result (OnBoth bytes.now) }
    {
        let mut card = StrInput::new();
        card.load(bytes)?;
        let cable = FallibleBufferedInput::new(ByteChars::of(bytes)?);
        Ok(Sides { card, cable })
    }
}

/// What card and cable gave of one text.
#[derive(Drop)]
pub struct Both {
    pub card: Taken,
    pub cable: Taken,
}

/// Why a text was not read.
#[derive(Debug, Drop)]
pub enum Unread {
    Refused(Refusal),
    Memory(AllocError),
}

impl From<AllocError> for Unread {
    ghost use Rattle.checklist.specs.declared.both.Unread.{Unread};

    ghost from_gives = { λ e unread. unread ≡ Unread.Memory e };

    fn from(e: AllocError) -> Unread {
        Unread::Memory(e)
    }
}

/// Reads a text to its end by card and by cable. Both give the file: the same characters, which are its bytes again when they are encoded, and both
/// are closed as whole.
#[tactic(auto, using(crate::proofs::Reading::whole_text))]
pub fn read_both(heap: Global, bytes: &[u8]) -> Result<Both, Unread>
    ensures { MatchResult result
        (λ both. WholeText bytes.now
        both.card.chars.items both.card.closing both.cable.chars.items both.cable.closing)
        (λ unread. RefusedFor bytes.now unread) }
{
    let mut sides = match Sides::of(bytes) {
        Ok(sides) => sides,
        Err(refusal) => return Err(Unread::Refused(refusal)),
    };
    let card = read_out(heap, &mut sides.card)?;
    let cable = read_out(heap, &mut sides.cable)?;
    Ok(Both { card, cable })
}

/// Whether by both a document start stands after so many characters.
pub fn both_find_start(bytes: &[u8], place: usize) -> Result<bool, Refusal>
    ensures checked { ChecksText bytes.now (outcome (λ _. []) result) }
    ensures found { IfOk result (λ found. found ≡ start_at (chars bytes.now) place) }
{
    let mut sides = Sides::of(bytes)?;
    let by_card = finds_start(&mut sides.card, place);
    let by_cable = finds_start(&mut sides.cable, place);
    Ok(by_card && by_cable)
}

/// Whether by both a `#` after so many characters is left.
pub fn both_leave_hash(bytes: &[u8], place: usize) -> Result<bool, Refusal>
    ensures checked { ChecksText bytes.now (outcome (λ _. []) result) }
    ensures left { IfOk result (λ left. left ≡ hash_at (chars bytes.now) place) }
{
    let mut sides = Sides::of(bytes)?;
    let by_card = leaves_hash(&mut sides.card, place);
    let by_cable = leaves_hash(&mut sides.cable, place);
    Ok(by_card && by_cable)
}

/// How many line ends the skips stopped at, by card and by cable.
#[derive(Clone, Copy)]
pub struct LineEnds {
    pub card: usize,
    pub cable: usize,
}

/// Skips from line end to line end by both.
pub fn both_count_line_ends(bytes: &[u8]) -> Result<LineEnds, Refusal>
    ensures checked { ChecksText bytes.now (outcome (λ _. []) result) }
    ensures card { IfOk result (λ ends. ends.card ≡ line_ends (chars bytes.now)) }
    ensures cable { IfOk result (λ ends. ends.cable ≡ line_ends (chars bytes.now)) }
{
    let mut sides = Sides::of(bytes)?;
    Ok(LineEnds {
        card: count_line_ends(&mut sides.card),
        cable: count_line_ends(&mut sides.cable),
    })
}

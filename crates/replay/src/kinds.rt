//! The kinds of input that a line can ask for.

ghost use Rattle.std.specs.Prelude.{◌≡◌, [], length, IfOk};
ghost use Rattle.std.specs.Str.{chars};
ghost use Rattle.error.specs.Limit.{text_limit};
ghost use Rattle.error.specs.Numbers.{clean, outcome};
ghost use Rattle.utf8.specs.Checking.{ChecksText};
ghost use Rattle.source.specs.CodeLimit.{code_limit};
ghost use Rattle.source.specs.Starts.{limit_number};
ghost use Rattle.source.specs.Texts.{text_ahead};
ghost use Rattle.source.specs.Codes.{code_chars, code_ending};
ghost use Rattle.source.specs.Fronts.{front_chars, front_ending};
ghost use Rattle.input.specs.View.{IsFresh};
ghost use Rattle.buffered.specs.Buffered.{ring_view};
ghost use Rattle.buffered.specs.Fallible.{failing_view};
ghost use Rattle.str_input.specs.Text.{text_making, text_view, Opens};
ghost use Rattle.player.specs.Lines.{Leaves};
ghost use Rattle.replay.specs.Rings.{ring_of};

use buffered::{BufferedInput, FallibleBufferedInput};
use error::Refusal;
use input::borrowed::BorrowedInput;
use input::made::Made;
use input::stepped::Stepped;
use player::{Desk, Lines, idle, serve_counted};
use protocol::Reply;
use runs::Scan;
use source::{ByteChars, Codes, CodesEnding, Counted, TextChars};
use std::io;
use str_input::StrInput;

/// A slice.
pub(crate) fn slice(bytes: &[u8]) -> Result<StrInput<'_>, Refusal>
    ensures checked { ChecksText bytes.now (outcome (λ _. []) result) }
    ensures fresh { IfOk result (λ x. IsFresh (text_making bytes.now) (text_view x)) }
    ensures opens { IfOk result (Opens bytes.now) }
{
    StrInput::make(bytes)
}

/// A ring over the characters of a text.
pub(crate) fn ring_of_text(bytes: &[u8]) -> Result<BufferedInput<Counted<TextChars<'_>>>, Refusal>
    ensures checked { ChecksText bytes.now (outcome (λ _. []) result) }
    ensures fresh { IfOk result (λ x. IsFresh (ring_of (chars bytes.now) clean)
        (ring_view (λ s. text_ahead s.below) x)) }
    ensures unstepped { IfOk result (λ x. x.feed.source.steps ≡ 0) }
{
    let source = TextChars::of(bytes)?;
    Ok(BufferedInput::new(Counted::new(source)))
}

/// A ring over any bytes.
pub(crate) fn ring_of_bytes(
    bytes: &[u8],
) -> Result<FallibleBufferedInput<Counted<ByteChars<'_>>>, Refusal>
    ensures limited { outcome (λ _. []) result ≡ limit_number text_limit (length bytes.now) }
    ensures fresh { IfOk result (λ x.
        IsFresh (ring_of (front_chars bytes.now) (front_ending 0 bytes.now)) (failing_view x)) }
    ensures unstepped { IfOk result (λ x. x.inner.feed.source.below.steps ≡ 0) }
{
    let source = ByteChars::of(bytes)?;
    Ok(FallibleBufferedInput::new(Counted::new(source)))
}

/// A ring over codes, after which the line may fail.
pub(crate) fn ring_of_codes(
    codes: &[u32],
    ending: CodesEnding,
) -> Result<FallibleBufferedInput<Counted<Codes<'_>>>, Refusal>
    ensures limited { outcome (λ _. []) result ≡ limit_number code_limit (length codes.now) }
    ensures fresh { IfOk result (λ x.
        IsFresh (ring_of (code_chars codes.now) (code_ending ending 0 codes.now))
        (failing_view x)) }
    ensures unstepped { IfOk result (λ x. x.inner.feed.source.below.steps ≡ 0) }
{
    let source = Codes::of(codes, ending)?;
    Ok(FallibleBufferedInput::new(Counted::new(source)))
}

/// A list on an input, or on none if it is refused. Tells the line that asks for the next, or that
/// there is none.
pub(crate) fn on<'a, 'b, I: Scan + BorrowedInput<'a> + Stepped + Drop>(
    rt: &HostRuntime,
    made: Result<I, Refusal>,
    lines: &mut Lines<'b>,
    desk: &mut Desk,
) -> io::Result<Option<&'b [u8]>>
    ensures { IfOk result (λ asked. Leaves lines.old.rest.now asked lines.new.rest.now) }
{
    match made {
        Ok(mut input) => {
            desk.begin(Reply::Done)?;
            serve_counted(rt, &mut input, lines, desk)
        }
        Err(refusal) => {
            desk.begin(Reply::Refused(refusal))?;
            idle(rt, lines, desk)
        }
    }
}

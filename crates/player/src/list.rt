//! Commands line by line, up to the next new input.

ghost use Rattle.std.specs.Prelude.{◌≡◌, ◌<◌, ◌≤◌, [], length, string_bytes, IsOk, OnOk, IfOk};
ghost use Rattle.player.specs.Lines.{IsLineFeed, TakesLine, Leaves};

use crate::desk::Desk;
use crate::steps::{Counting, StepCount, Uncounted};
use input::borrowed::BorrowedInput;
use input::stepped::Stepped;
use input::ticket::Reading;
use protocol::{Command, parse};
use runs::Scan;
use std::alloc::AllocError;
use std::io;

/// The lines of a text that are yet to be read.
#[derive(Clone, Copy)]
pub struct Lines<'a> {
    rest: &'a [u8],
}

/// Where the first line feed of a text is, if it has one.
fn line_feed(text: &[u8]) -> Option<usize>
    ensures { IsLineFeed text.now result }
{
    text.iter().position(|b| *b == b'\n')
}

impl<'a> Lines<'a> {
    /// The lines of a whole text.
    pub fn new(text: &'a [u8]) -> Lines<'a>
        ensures { result.rest.now ≡ text.now }
    {
        Lines { rest: text }
    }

    /// Takes the next line, without its line feed.
    pub fn take_line(&mut self) -> Option<&'a [u8]>
        ensures { TakesLine self.old.rest.now result self.new.rest.now }
    {
        let text = self.rest;
        if text.is_empty() {
            return None;
        }
        match line_feed(text) {
            Some(end) => {
                self.rest = &text[end + 1..];
                Some(&text[..end])
            }
            None => {
                self.rest = &[];
                Some(text)
            }
        }
    }
}

/// Answers commands while there is no input. Tells the line that asks for the next new input, or
/// that there is none.
#[tactic(auto, using(crate::proofs::TakenLines::shorter, crate::proofs::TakenLines::passed_none, crate::proofs::TakenLines::passed_more, crate::proofs::TakenLines::leaves_none, crate::proofs::TakenLines::leaves_some))]
pub fn idle<'a>(
    rt: &impl Print,
    lines: &mut Lines<'a>,
    desk: &mut Desk,
) -> io::Result<Option<&'a [u8]>>
    ensures { IfOk result (λ asked. Leaves lines.old.rest.now asked lines.new.rest.now) }
{
    while let Some(line) = lines.take_line() {
        match parse(line) {
            Command::New => return Ok(Some(line)),
            command => desk.aside(command)?,
        }
        desk.flush_if_large(rt)?;
    }
    Ok(None)
}

/// After a command is answered, hands out the lines that wait if they are many.
fn settle(done: Result<(), AllocError>, rt: &impl Print, desk: &mut Desk) -> io::Result<()>
    ensures done { OnOk result (IsOk done) }
    ensures few { OnOk result (length (string_bytes desk.old.out) < 65536
        → string_bytes desk.new.out ≡ string_bytes desk.old.out) }
    ensures many { OnOk result (65536 ≤ length (string_bytes desk.old.out)
        → string_bytes desk.new.out ≡ []) }
    ensures rooms { desk.new.rooms ≡ desk.old.rooms }
{
    done?;
    desk.flush_if_large(rt)
}

/// Answers commands with an input, and by `N` how often its source was stepped; at last closes the
/// reading that is open. Tells the line that asks for the next new input, or that there is none.
#[tactic(auto, using(crate::proofs::TakenLines::shorter, crate::proofs::TakenLines::passed_none, crate::proofs::TakenLines::passed_more, crate::proofs::TakenLines::leaves_none, crate::proofs::TakenLines::leaves_some))]
fn serve_by<'a, 'b, N: StepCount<I>, I: Scan + BorrowedInput<'a>>(
    rt: &impl Print,
    input: &mut I,
    lines: &mut Lines<'b>,
    desk: &mut Desk,
) -> io::Result<Option<&'b [u8]>>
    ensures { IfOk result (λ asked. Leaves lines.old.rest.now asked lines.new.rest.now) }
{
    let mut held = None;
    let stopped = loop {
        let Some(line) = lines.take_line() else {
            break Ok(None);
        };
        let command = match parse(line) {
            Command::New => break Ok(Some(line)),
            command => command,
        };
        let (done, next) = desk.turn::<N, I>(input, command, held);
        held = next;
        if let Err(e) = settle(done, rt, desk) {
            break Err(e);
        }
    };
    let _ = Reading::close_held(held, input);
    stopped
}

/// Answers commands with an input, of whose source no steps are told, and at last closes the
/// reading that is open. Tells the line that asks for the next new input, or that there is none.
pub fn serve<'a, 'b, I: Scan + BorrowedInput<'a>>(
    rt: &impl Print,
    input: &mut I,
    lines: &mut Lines<'b>,
    desk: &mut Desk,
) -> io::Result<Option<&'b [u8]>>
    ensures { IfOk result (λ asked. Leaves lines.old.rest.now asked lines.new.rest.now) }
{
    serve_by::<Uncounted, I>(rt, input, lines, desk)
}

/// Answers commands with an input that tells how often its source was stepped, and at last closes
/// the reading that is open. Tells the line that asks for the next new input, or that there is
/// none.
pub fn serve_counted<'a, 'b, I: Scan + BorrowedInput<'a> + Stepped>(
    rt: &impl Print,
    input: &mut I,
    lines: &mut Lines<'b>,
    desk: &mut Desk,
) -> io::Result<Option<&'b [u8]>>
    ensures { IfOk result (λ asked. Leaves lines.old.rest.now asked lines.new.rest.now) }
{
    serve_by::<Counting, I>(rt, input, lines, desk)
}

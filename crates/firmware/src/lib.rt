//! The lines of a text, for a firmware in C: `examples/firmware` has its header and a program that calls it.
#![tactic(auto)]

ghost use Rattle.std.specs.Prelude.{◌≡◌, [], Ok, Err, Result, MatchResult};
ghost use Rattle.std.specs.Str.{chars};
ghost use Rattle.reader.specs.Numbers.{outcome};
ghost use Rattle.reader.specs.Checking.{ChecksText};
ghost use Rattle.reader.specs.declared.Fetched.{Fetched as TheFetched};
ghost use Rattle.reader.specs.declared.Refusal.{Refusal as TheRefusal};
ghost use Rattle.firmware.specs.Lines.{past_feed, past_break, past_line, past_lines, nth_line, FetchesLine, line_for};

use reader::{Fetched, Input, NotBreakz, Refusal, Scan, StrInput, skip_while};

/// How many bytes of the room a line fills, how many characters it has, and the number of a refusal, or 0.
#[repr(C)]
#[derive(Clone, Copy)]
pub struct Line {
    pub bytes: usize,
    pub chars: usize,
    pub refusal: u8,
}

impl From<Refusal> for Line {
    ghost from_gives = { λ refusal line. line ≡ line_for (Err refusal) };

    fn from(refusal: Refusal) -> Line {
        Line {
            bytes: 0,
            chars: 0,
            refusal: refusal.number(),
        }
    }
}

impl From<Fetched> for Line {
    ghost from_gives = { λ fetched line. line ≡ line_for (Ok fetched) };

    fn from(fetched: Fetched) -> Line {
        Line {
            bytes: fetched.filled,
            chars: fetched.count,
            refusal: match fetched.refusal {
                Some(refusal) => refusal.number(),
                None => 0,
            },
        }
    }
}

fn skip_feed<I: Input>(input: &mut I)
    ensures { (I.view input.new).ahead ≡ past_feed (I.view input.old).ahead }
{
    if let Some('\n') = input.next_ch() {
        input.skip();
    }
}

/// Skips a break: a carriage return, a line feed, or both in this order.
fn skip_break<I: Input>(input: &mut I)
    ensures { (I.view input.new).ahead ≡ past_break (I.view input.old).ahead }
{
    if let Some('\r') = input.next_ch() {
        input.skip();
    }
    skip_feed(input);
}

fn skip_line<I: Input>(input: &mut I)
    ensures { (I.view input.new).ahead ≡ past_line (I.view input.old).ahead }
{
    let _ = skip_while(input, &NotBreakz);
    skip_break(input);
}

fn skip_lines<I: Input>(input: &mut I, lines: u32)
    ensures { (I.view input.new).ahead ≡ past_lines lines (I.view input.old).ahead }
{
    for n in 0..lines {
        skip_line(input);
    }
}

/// Fetches a line of a text, counted from 0, into a room. Past the last line it is empty, and so it is past a
/// NUL, at which a line ends and which is no break to skip.
pub fn fetch_nth(text: &[u8], line: u32, room: &mut [u8]) -> Result<Fetched, Refusal>
    ensures checked { ChecksText text.now (outcome (λ _. []) result) }
    ensures line { MatchResult result
        (λ r. FetchesLine (nth_line line (chars text.now)) room.old r room.new)
        (λ _. room.new ≡ room.old) }
{
    let mut input = StrInput::of(text)?;
    skip_lines(&mut input, line);
    Ok(input.fetch_block_scalar_line(room, 0))
}

/// Fetches a line of a text, counted from 0, into a room, for C.
#[unsafe(no_mangle)]
pub extern "C" fn firmware_line(text: &[u8], line: u32, room: &mut [u8]) -> Line
    ensures { (answer : Result TheFetched TheRefusal) × (result ≡ line_for answer)
        × ChecksText text.now (outcome (λ _. []) answer)
        × MatchResult answer
        (λ r. FetchesLine (nth_line line (chars text.now)) room.old r room.new)
        (λ _. room.new ≡ room.old) }
{
    match fetch_nth(text, line, room) {
        Ok(fetched) => Line::from(fetched),
        Err(refusal) => Line::from(refusal),
    }
}

//! Lines of answers.

ghost use Rattle.std.specs.Prelude.{◌≡◌, ◌++◌, string_bytes, [], Some, None, OnOk, MatchOption};
ghost use Rattle.protocol.specs.Answers.{answer_text, reply_text, part_text, taken_text, end_text, is_beyond, fetched_text, flags_text, eol_text, test_text, next_text, asked_text, line_of};
ghost use Rattle.protocol.specs.Digits.{bytes_text};

use crate::answer::{ClosingText, CodeText, FaultText, RefusalText, Reply};
use crate::digits::push_bytes;
use calls::Answer;
use error::{Fault, Refusal};
use runs::{Fetched, WhitespaceResult};
use std::alloc::AllocError;
use std::fmt::Write;

/// Appends a line with a reply.
pub fn push_reply(out: &mut String, reply: Reply) -> Result<(), AllocError>
    ensures { OnOk result
        (string_bytes out.new ≡ string_bytes out.old ++ line_of (reply_text reply)) }
{
    writeln!(out, "{reply}")
}

fn push_next(out: &mut String, next: Option<char>) -> Result<(), AllocError>
    ensures { OnOk result (string_bytes out.new ≡ string_bytes out.old ++ next_text next) }
{
    match next.map(CodeText) {
        Some(code) => write!(out, "{code}"),
        None => out.push_str("none"),
    }
}

fn push_test(out: &mut String, test: Result<bool, Refusal>) -> Result<(), AllocError>
    ensures { OnOk result (string_bytes out.new ≡ string_bytes out.old ++ test_text test) }
{
    match test.map_err(RefusalText) {
        Ok(truth) => write!(out, "{truth}"),
        Err(refusal) => write!(out, "{refusal}"),
    }
}

fn push_asked(out: &mut String, asked: Option<Fault>) -> Result<(), AllocError>
    ensures { OnOk result (string_bytes out.new ≡ string_bytes out.old ++ asked_text asked) }
{
    match asked.map(FaultText) {
        Some(fault) => write!(out, "{fault}"),
        None => out.push_str("none"),
    }
}

fn push_blanks(out: &mut String, count: usize, blanks: WhitespaceResult) -> Result<(), AllocError>
    ensures { OnOk result
        (string_bytes out.new ≡ string_bytes out.old
        ++ answer_text (Answer.Blanks count blanks) []) }
{
    let WhitespaceResult {
        found_tabs,
        has_valid_yaml_ws,
    } = blanks;
    write!(out, "{count} {found_tabs} {has_valid_yaml_ws}")
}

fn push_eol(
    out: &mut String,
    count: usize,
    eol: Result<WhitespaceResult, Refusal>,
) -> Result<(), AllocError>
    ensures { OnOk result
        (string_bytes out.new ≡ string_bytes out.old ++ answer_text (Answer.ToEol count eol) []) }
{
    match eol {
        Ok(
            WhitespaceResult {
                found_tabs,
                has_valid_yaml_ws,
            },
        ) => { write!(out, "{count} ok {found_tabs} {has_valid_yaml_ws}") }
        Err(_) => write!(out, "{count} err CommentNotSeparated"),
    }
}

/// Whether a chunk stopped, and the count.
fn push_taken(out: &mut String, stopped: Option<bool>, count: usize) -> Result<(), AllocError>
    ensures { OnOk result
        (string_bytes out.new ≡ string_bytes out.old ++ taken_text stopped count) }
{
    match stopped {
        Some(stopped) => write!(out, "{stopped} {count} "),
        None => write!(out, "{count} "),
    }
}

fn push_end(out: &mut String, refusal: Option<Refusal>) -> Result<(), AllocError>
    ensures { OnOk result (string_bytes out.new ≡ string_bytes out.old ++ end_text refusal) }
{
    match refusal.map(RefusalText) {
        Some(refusal) => write!(out, " {refusal}"),
        None => Ok(()),
    }
}

fn is_beyond(refusal: Option<Refusal>) -> bool
    ensures { result ≡ is_beyond refusal }
{
    matches!(refusal, Some(Refusal::BeyondRoom))
}

fn push_fetched(
    out: &mut String,
    stopped: Option<bool>,
    fetched: Fetched,
    bytes: &[u8],
) -> Result<(), AllocError>
    ensures { OnOk result
        (string_bytes out.new ≡ string_bytes out.old ++ fetched_text stopped fetched bytes.now) }
{
    if is_beyond(fetched.refusal) {
        return push_test(out, Err(Refusal::BeyondRoom));
    }
    push_taken(out, stopped, fetched.count)?;
    push_bytes(out, bytes)?;
    push_end(out, fetched.refusal)
}

fn push_text(out: &mut String, answer: Answer, bytes: &[u8]) -> Result<(), AllocError>
    ensures { OnOk result
        (string_bytes out.new ≡ string_bytes out.old ++ answer_text answer bytes.now) }
{
    match answer {
        Answer::Nothing => out.push_str("ok"),
        Answer::Character(c) => push_next(out, Some(c)),
        Answer::Next(next) => push_next(out, next),
        Answer::Tested(test) => push_test(out, test),
        Answer::Asked(asked) => push_asked(out, asked),
        Answer::Closed(closing) => {
            let closing = ClosingText(closing);
            write!(out, "{closing}")
        }
        Answer::Count(n) => write!(out, "{n}"),
        Answer::Fetch(fetched) => push_fetched(out, None, fetched, bytes),
        Answer::Blanks(count, blanks) => push_blanks(out, count, blanks),
        Answer::ToEol(count, eol) => push_eol(out, count, eol),
        Answer::SkippedChunk(stopped, n) => write!(out, "{stopped} {n}"),
        Answer::FetchedChunk(stopped, fetched) => push_fetched(out, Some(stopped), fetched, bytes),
    }
}

/// Appends a line with a call's answer; of a fetch, with the bytes that it appended to its room.
pub fn push_answer(out: &mut String, answer: Answer, bytes: &[u8]) -> Result<(), AllocError>
    ensures { OnOk result
        (string_bytes out.new ≡ string_bytes out.old ++ line_of (answer_text answer bytes.now)) }
{
    push_text(out, answer, bytes)?;
    out.push_str("\n")
}

/// Appends a line with bytes.
pub fn push_room(out: &mut String, bytes: &[u8]) -> Result<(), AllocError>
    ensures { OnOk result
        (string_bytes out.new ≡ string_bytes out.old ++ line_of (bytes_text bytes.now)) }
{
    push_bytes(out, bytes)?;
    out.push_str("\n")
}

/// Appends a line with a part of a text, or that there is none.
pub fn push_part(out: &mut String, part: Option<&[u8]>) -> Result<(), AllocError>
    ensures { MatchOption part.entry
        (OnOk result (string_bytes out.new ≡ string_bytes out.old ++ line_of (part_text None)))
        (λ bytes. OnOk result
        (string_bytes out.new ≡ string_bytes out.old ++ line_of (part_text (Some bytes.now)))) }
{
    match part {
        Some(part) => {
            out.push_str("some ")?;
            push_room(out, part)
        }
        None => out.push_str("none\n"),
    }
}

//! How the scanning calls of an input are made: by its own, or character by character.

ghost use Rattle.std.specs.Prelude.{true};
ghost use Rattle.runs.specs.Scans.{SkipsRun, Fetches};
ghost use Rattle.calls.specs.Entries.{run_skipped, skip_look, run_fetched, fetch_look, Scans};

use crate::call::{Answer, Call, FetchCall, ScanCall, SkipCall};
use char_traits::class::{Alpha, Blank, Class, PrintableNotBreakz, YamlNonSpace};
use input::Input;
use runs::blanks::{skip_blanks, skip_to_eol};
use runs::calls::{fetch_line, fetch_while, skip_while};
use runs::plain::{fetch_chunk, fetch_plain, skip_chunk, skip_plain};
use runs::{Fetched, Scan};

/// A way to make the scanning calls of an input.
pub trait Scanner<I: Input> {
    /// Makes a scanning call; a fetch has the room that is lent.
    fn scan<C: Class + Copy>(
        input: &mut I,
        call: ScanCall<C>,
        room: &mut [u8],
        filled: usize,
    ) -> Answer
        ensures { Scans C.member call
            (record {
              call = Call.Scan call;
              room = room.old;
              filled = filled;
              answer = result;
              left = room.new;
            })
            (I.view input.old) (I.view input.new) };
}

/// By the scanning calls of the input itself.
pub struct Own;

/// Character by character, of an input that need not scan.
pub struct ByCharacter;

/// Skips a run.
fn skip_run<C: Class + Copy, I: Scan>(input: &mut I, skip: SkipCall<C>) -> usize
    ensures { let v = I.view input.old in
        SkipsRun true (skip_look skip v.manner) (run_skipped C.member skip v.ahead) result v
        (I.view input.new) }
{
    match skip {
        SkipCall::While(class) => skip_while(input, &class),
        SkipCall::WhileBlank => input.skip_while_blank(),
        SkipCall::WhileNonBreakz => input.skip_while_non_breakz(),
        SkipCall::PlainRun(in_flow) => input.skip_plain_run(in_flow),
    }
}

/// Fetches a run.
fn fetch_run<C: Class + Copy, I: Scan>(
    input: &mut I,
    fetch: FetchCall<C>,
    room: &mut [u8],
    filled: usize,
) -> Fetched
    ensures { let v = I.view input.old in
        Fetches true (fetch_look fetch v.manner) (run_fetched C.member fetch v.ahead)
        room.old filled result room.new v (I.view input.new) }
{
    match fetch {
        FetchCall::While(class) => fetch_while(input, &class, room, filled),
        FetchCall::WhileIsAlpha => input.fetch_while_is_alpha(room, filled),
        FetchCall::WhileIsYamlNonSpace => input.fetch_while_is_yaml_non_space(room, filled),
        FetchCall::BlockScalarLine => input.fetch_block_scalar_line(room, filled),
        FetchCall::PlainRun(in_flow) => input.fetch_plain_run(room, filled, in_flow),
    }
}

/// Skips a run, character by character.
fn step_run<C: Class + Copy, I: Input>(input: &mut I, skip: SkipCall<C>) -> usize
    ensures { let v = I.view input.old in
        SkipsRun true (skip_look skip v.manner) (run_skipped C.member skip v.ahead) result v
        (I.view input.new) }
{
    match skip {
        SkipCall::While(class) => skip_while(input, &class),
        SkipCall::WhileBlank => skip_while(input, &Blank),
        SkipCall::WhileNonBreakz => skip_while(input, &PrintableNotBreakz),
        SkipCall::PlainRun(in_flow) => skip_plain(input, in_flow),
    }
}

/// Fetches a run, character by character.
fn append_run<C: Class + Copy, I: Input>(
    input: &mut I,
    fetch: FetchCall<C>,
    room: &mut [u8],
    filled: usize,
) -> Fetched
    ensures { let v = I.view input.old in
        Fetches true (fetch_look fetch v.manner) (run_fetched C.member fetch v.ahead)
        room.old filled result room.new v (I.view input.new) }
{
    match fetch {
        FetchCall::While(class) => fetch_while(input, &class, room, filled),
        FetchCall::WhileIsAlpha => fetch_while(input, &Alpha, room, filled),
        FetchCall::WhileIsYamlNonSpace => fetch_while(input, &YamlNonSpace, room, filled),
        FetchCall::BlockScalarLine => fetch_line(input, room, filled),
        FetchCall::PlainRun(in_flow) => fetch_plain(input, room, filled, in_flow),
    }
}

impl<I: Scan> Scanner<I> for Own {
    fn scan<C: Class + Copy>(
        input: &mut I,
        call: ScanCall<C>,
        room: &mut [u8],
        filled: usize,
    ) -> Answer {
        match call {
            ScanCall::SkipRun(skip) => Answer::Count(skip_run(input, skip)),
            ScanCall::FetchRun(fetch) => Answer::Fetch(fetch_run(input, fetch, room, filled)),
            ScanCall::SkipWsToEol(tabs) => {
                let (count, result) = input.skip_ws_to_eol(tabs);
                Answer::ToEol(count, result)
            }
            ScanCall::SkipWsToEolBlanks(tabs) => {
                let (count, flags) = input.skip_ws_to_eol_blanks(tabs);
                Answer::Blanks(count, flags)
            }
            ScanCall::SkipPlainScalarChunk(count, in_flow) => {
                let (stopped, skipped) = input.skip_plain_scalar_chunk(count, in_flow);
                Answer::SkippedChunk(stopped, skipped)
            }
            ScanCall::FetchPlainScalarChunk(count, in_flow) => {
                let (stopped, fetched) = input.fetch_plain_scalar_chunk(
                    room, filled, count, in_flow,
                );
                Answer::FetchedChunk(stopped, fetched)
            }
        }
    }
}

impl<I: Input> Scanner<I> for ByCharacter {
    fn scan<C: Class + Copy>(
        input: &mut I,
        call: ScanCall<C>,
        room: &mut [u8],
        filled: usize,
    ) -> Answer {
        match call {
            ScanCall::SkipRun(skip) => Answer::Count(step_run(input, skip)),
            ScanCall::FetchRun(fetch) => Answer::Fetch(append_run(input, fetch, room, filled)),
            ScanCall::SkipWsToEol(tabs) => {
                let (count, result) = skip_to_eol(input, tabs);
                Answer::ToEol(count, result)
            }
            ScanCall::SkipWsToEolBlanks(tabs) => {
                let (count, flags) = skip_blanks(input, tabs);
                Answer::Blanks(count, flags)
            }
            ScanCall::SkipPlainScalarChunk(count, in_flow) => {
                let (stopped, skipped) = skip_chunk(input, count, in_flow);
                Answer::SkippedChunk(stopped, skipped)
            }
            ScanCall::FetchPlainScalarChunk(count, in_flow) => {
                let (stopped, fetched) = fetch_chunk(input, room, filled, count, in_flow);
                Answer::FetchedChunk(stopped, fetched)
            }
        }
    }
}

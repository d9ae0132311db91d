//! The worked examples of scans, run on slice and rings.

use buffered::BufferedInput;
use calls::{Answer, Call, FetchCall, NoClass, ScanCall, Step};
use card_and_cable::card_and_cable;
use error::Refusal;
use input::Input;
use runs::{Scan, SkipTabs};
use source::{Codes, CodesEnding, TextChars};
use std::test::*;
use str_input::StrInput;

// How many are skipped to the end of the line, and whether a tab and a space were.
fn to_eol<I: Scan>(input: &mut I, tabs: SkipTabs) -> (usize, Result<(bool, bool), Refusal>) {
    let (count, result) = input.skip_ws_to_eol(tabs);
    let seen = result.map(|seen| (seen.found_tabs, seen.has_valid_yaml_ws));
    (count, seen)
}

#[test]
fn to_the_end_of_a_line(rt: HostRuntime) -> Result<(), Fail> {
    let mut card = StrInput::new();
    card.load(b"  \t# hot\n")?;
    assert_eq!(rt; to_eol(&mut card, SkipTabs::Yes), (8, Ok((true, true))));
    let mut text = TextChars::new();
    text.load(b"  \t# hot\n")?;
    let mut cable = BufferedInput::new(text);
    assert_eq!(rt; to_eol(&mut cable, SkipTabs::No), (2, Ok((false, true))));
    assert_eq!(rt; to_eol(&mut cable, SkipTabs::Yes), (6, Ok((true, false))));
    card.load(b"#x")?;
    assert_eq!(rt;
        to_eol(&mut card, SkipTabs::Yes),
        (0, Err(Refusal::CommentNotSeparated))
    );
    Ok(())
}

#[test]
fn plain_runs(rt: HostRuntime) -> Result<(), Fail> {
    let mut card = StrInput::new();
    card.load(b"a:b c")?;
    assert_eq!(rt; card.skip_plain_run(false), 3);
    card.load(b"a: b")?;
    assert_eq!(rt; card.skip_plain_run(false), 1);
    let mut text = TextChars::new();
    text.load(b"a,b")?;
    let mut cable = BufferedInput::new(text);
    assert_eq!(rt; cable.skip_plain_run(true), 1);
    Ok(())
}

#[test]
fn a_room_that_is_too_small(rt: HostRuntime) -> Result<(), Fail> {
    let mut room = [0xEEu8; 3];
    let mut card = StrInput::new();
    card.load("abé".as_bytes())?;
    let fetched = card.fetch_while_is_yaml_non_space(&mut room, 0);
    assert!(rt; fetched.count == 2 && fetched.filled == 2);
    assert_eq!(rt; fetched.refusal, Some(Refusal::RoomFull));
    assert!(rt; room[0] == b'a' && room[1] == b'b' && room[2] == 0xEE);
    let mut text = TextChars::new();
    text.load("abé".as_bytes())?;
    let mut cable = BufferedInput::new(text);
    let fetched = cable.fetch_while_is_yaml_non_space(&mut room, 4);
    assert!(rt; fetched.count == 0 && fetched.filled == 4);
    assert_eq!(rt; fetched.refusal, Some(Refusal::BeyondRoom));
    assert_eq!(rt; cable.buflen(), 0);
    Ok(())
}

#[test]
fn chunks_on_a_ring(rt: HostRuntime) -> Result<(), Fail> {
    let mut text = TextChars::new();
    text.load(b"a:b")?;
    let mut narrow = BufferedInput::new(text);
    let (stopped, count) = narrow.skip_plain_scalar_chunk(3, false);
    assert!(rt; stopped && count == 1);
    let mut text = TextChars::new();
    text.load(b"a:b")?;
    let mut wide = BufferedInput::new(text);
    wide.lookahead(2);
    let (stopped, count) = wide.skip_plain_scalar_chunk(3, false);
    assert!(rt; !stopped && count == 3);
    Ok(())
}

fn fetched_of(step: &Step<NoClass>) -> Option<(usize, Option<Refusal>)> {
    match step.answer {
        Answer::Fetch(fetched) => Some((fetched.count, fetched.refusal)),
        _ => None,
    }
}

fn room_of(step: &Step<NoClass>) -> &[u8] {
    match &step.room {
        Some(room) => room.as_slice(),
        None => &[],
    }
}

#[test]
fn rooms_in_lists(rt: HostRuntime) -> Result<(), Fail> {
    let heap = rt.alloc();
    let call = Call::Scan(ScanCall::FetchRun(FetchCall::WhileIsYamlNonSpace));
    let mut source = Codes::new();
    source.load(&[0x61, 0x62, 0xE9], CodesEnding::InputIo)?;
    let mut one = [Step::with_room(call, vec![in heap; 0xEE; 3]?, 0)];
    let mut other = [Step::with_room(call, vec![in heap; 0xEE; 3]?, 0)];
    card_and_cable("abé".as_bytes(), source, &mut one, &mut other)?;
    let told = Some((2, Some(Refusal::RoomFull)));
    assert_eq!(rt; fetched_of(&one[0]), told);
    assert_eq!(rt; fetched_of(&other[0]), told);
    assert!(rt; room_of(&one[0]) == b"ab\xEE".as_slice());
    assert!(rt; room_of(&other[0]) == b"ab\xEE".as_slice());
    Ok(())
}

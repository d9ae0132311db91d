//! Lists taken through card, cable and radio.

use buffered::FallibleBufferedInput;
use calls::{Answer, Call, NoClass, RoomlessStep, ScanCall, SkipCall, Step};
use card_and_cable::card_and_cable;
use card_and_cable::radio::radio_and_card;
use choice::OneOf;
use error::{Fault, FaultKind};
use input::ticket::Reading;
use input::{Closing, Input};
use reading::list::{run_roomless, side_by_side_roomless, side_by_side_scanning};
use receiver::Packets;
use source::{Codes, CodesEnding};
use std::test::*;
use str_input::StrInput;

// A card's slice or a cable's ring, by what was plugged in.
type Plugged<'a> = OneOf<StrInput<'a>, FallibleBufferedInput<Codes<'a>>>;

pub(crate) const LOST: Fault = Fault {
    kind: FaultKind::InputIo,
    place: 2,
};

pub(crate) fn character(step: &Step<NoClass>) -> Option<char> {
    match step.answer {
        Answer::Character(c) => Some(c),
        Answer::Next(next) => next,
        _ => None,
    }
}

// The fault that is told by an asking or a closing.
pub(crate) fn fault(step: &Step<NoClass>) -> Option<Fault> {
    match step.answer {
        Answer::Asked(fault) => fault,
        Answer::Closed(Closing::Failed(fault)) => Some(fault),
        _ => None,
    }
}

#[test]
fn card_beside_cable(rt: HostRuntime) -> Result<(), Fail> {
    let mut source = Codes::new();
    source.load(&[0x61, 0xE9], CodesEnding::InputIo)?;
    let mut one = [
        Step::new(Call::Lookahead(2)),
        Step::new(Call::PeekNth(1)),
        Step::new(Call::Read),
        Step::new(Call::NextCh),
        Step::new(Call::SkipN(3)),
    ];
    let mut other = [
        Step::new(Call::Added(2)),
        Step::new(Call::Lookahead(2)),
        Step::new(Call::PeekNth(1)),
        Step::new(Call::Open),
        Step::new(Call::TakeSourceError),
        Step::new(Call::Read),
        Step::new(Call::NextCh),
        Step::new(Call::SkipN(3)),
        Step::new(Call::TakeSourceError),
        Step::new(Call::TakeSourceError),
        Step::new(Call::Close),
    ];
    card_and_cable("aé".as_bytes(), source, &mut one, &mut other)?;
    assert_eq!(rt; character(&one[1]), Some('é'));
    assert_eq!(rt; character(&other[2]), Some('é'));
    assert_eq!(rt; character(&one[2]), Some('a'));
    assert_eq!(rt; character(&other[5]), Some('a'));
    assert_eq!(rt; character(&one[3]), Some('é'));
    assert_eq!(rt; character(&other[6]), Some('é'));
    assert_eq!(rt; fault(&other[4]), None);
    assert_eq!(rt; fault(&other[8]), Some(LOST));
    assert_eq!(rt; fault(&other[9]), None);
    assert_eq!(rt; fault(&other[10]), Some(LOST));
    Ok(())
}

#[test]
fn radio_beside_card(rt: HostRuntime) -> Result<(), Fail> {
    let packets = Packets::of(&[None, Some('a'), None, Some('b')], CodesEnding::Clean)?;
    let mut one = [
        Step::new(Call::Read),
        Step::new(Call::LookCh),
        Step::new(Call::Skip),
        Step::new(Call::Close),
    ];
    let mut other = [
        Step::new(Call::Read),
        Step::new(Call::LookCh),
        Step::new(Call::Skip),
        Step::new(Call::Close),
    ];
    radio_and_card(packets, b"ab", &mut one, &mut other)?;
    assert_eq!(rt; character(&one[0]), Some('a'));
    assert_eq!(rt; character(&other[0]), Some('a'));
    assert_eq!(rt; character(&one[1]), Some('b'));
    assert_eq!(rt; character(&other[1]), Some('b'));
    assert!(rt; matches!(one[3].answer, Answer::Closed(Closing::Whole)));
    assert!(rt; matches!(other[3].answer, Answer::Closed(Closing::Whole)));
    Ok(())
}

fn blank_and_letter() -> [Step<NoClass>; 8] {
    [
        Step::new(Call::Open),
        Step::new(Call::Scan(ScanCall::SkipRun(SkipCall::WhileBlank))),
        Step::new(Call::TakeSourceError),
        Step::new(Call::Read),
        Step::new(Call::NextCh),
        Step::new(Call::TakeSourceError),
        Step::new(Call::TakeSourceError),
        Step::new(Call::Close),
    ]
}

// The window's room and the ending are those of what was plugged in.
#[test]
fn plugged_in_card_beside_cable(rt: HostRuntime) -> Result<(), Fail> {
    let mut slice = StrInput::new();
    slice.load(b" a")?;
    let mut source = Codes::new();
    source.load(&[0x20, 0x61], CodesEnding::InputIo)?;
    let mut card: Plugged<'_> = OneOf::First(slice);
    let mut cable: Plugged<'_> = OneOf::Second(FallibleBufferedInput::new(source));
    let mut one = blank_and_letter();
    let mut other = blank_and_letter();
    let (held, beside) = side_by_side_scanning(
        &mut card, &mut cable, &mut one, &mut other, None, None,
    );
    let _ = Reading::close_held(held, &mut card);
    let _ = Reading::close_held(beside, &mut cable);
    assert_eq!(rt; card.bufmaxlen(), 128);
    assert_eq!(rt; cable.bufmaxlen(), 16);
    assert_eq!(rt; cable.buflen(), 1);
    assert!(rt; matches!(one[1].answer, Answer::Count(1)));
    assert!(rt; matches!(other[1].answer, Answer::Count(1)));
    assert_eq!(rt; fault(&other[2]), None);
    assert_eq!(rt; character(&one[3]), Some('a'));
    assert_eq!(rt; character(&other[3]), Some('a'));
    assert_eq!(rt; character(&one[4]), None);
    assert_eq!(rt; character(&other[4]), None);
    assert_eq!(rt; fault(&one[5]), None);
    assert_eq!(rt; fault(&other[5]), Some(LOST));
    assert_eq!(rt; fault(&other[6]), None);
    assert!(rt; matches!(one[7].answer, Answer::Closed(Closing::Whole)));
    assert_eq!(rt; fault(&other[7]), Some(LOST));
    Ok(())
}

fn roomless(call: Call<NoClass>) -> RoomlessStep<NoClass> {
    RoomlessStep {
        call,
        answer: Answer::Nothing,
    }
}

// A list whose calls bring no room is copied, and its copies go through a slice, beside a ring, and
// through a slice again.
#[test]
fn copied_list(rt: HostRuntime) -> Result<(), Fail> {
    let list = [
        roomless(Call::Open),
        roomless(Call::Lookahead(2)),
        roomless(Call::PeekNth(1)),
        roomless(Call::Read),
        roomless(Call::Scan(ScanCall::SkipRun(SkipCall::WhileNonBreakz))),
        roomless(Call::NextCh),
        roomless(Call::TakeSourceError),
        roomless(Call::Close),
    ];
    let mut source = Codes::new();
    source.load(&[0x61, 0xE9, 0x62], CodesEnding::InputIo)?;
    let mut ring = FallibleBufferedInput::new(source);
    let mut slice = StrInput::new();
    slice.load("aéb".as_bytes())?;
    let mut again = StrInput::new();
    again.load("aéb".as_bytes())?;
    let mut one = list;
    let mut other = list;
    let (held, beside) = side_by_side_roomless(
        &mut slice, &mut ring, &mut one, &mut other, None, None,
    );
    let _ = Reading::close_held(held, &mut slice);
    let _ = Reading::close_held(beside, &mut ring);
    assert!(rt; matches!(one[2].answer, Answer::Character('é')));
    assert!(rt; matches!(other[2].answer, Answer::Character('é')));
    assert!(rt; matches!(one[3].answer, Answer::Character('a')));
    assert!(rt; matches!(other[3].answer, Answer::Character('a')));
    assert!(rt; matches!(one[4].answer, Answer::Count(2)));
    assert!(rt; matches!(other[4].answer, Answer::Count(2)));
    assert!(rt; matches!(one[5].answer, Answer::Next(None)));
    assert!(rt; matches!(other[5].answer, Answer::Next(None)));
    assert!(rt; matches!(one[7].answer, Answer::Closed(Closing::Whole)));
    assert!(rt; matches!(other[7].answer, Answer::Closed(Closing::Failed(_))));
    let mut copy = one;
    let held = run_roomless(&mut again, None, &mut copy);
    let _ = Reading::close_held(held, &mut again);
    assert!(rt; matches!(copy[4].answer, Answer::Count(2)));
    assert!(rt; matches!(copy[7].answer, Answer::Closed(Closing::Whole)));
    assert!(rt; matches!(list[4].answer, Answer::Nothing));
    Ok(())
}

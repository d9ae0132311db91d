//! A receiver beside a list of codes: the same text, with the same fault.

use crate::beside::receive_beside;
use crate::packets::Packets;
use crate::quote::UntilQuote;
use crate::stash::Stash;
use calls::{Answer, Call, NoClass, ScanCall, SkipCall, Step};
use error::{Fault, FaultKind};
use input::Input;
use input::ticket::Reading;
use runs::calls::skip_while;
use source::{Codes, CodesEnding};
use std::test::Fail;

const LOST: Fault = Fault {
    kind: FaultKind::InputIo,
    place: 2,
};

fn character(step: &Step<NoClass>) -> Option<char> {
    match step.answer {
        Answer::Character(c) => Some(c),
        _ => None,
    }
}

fn fault(step: &Step<NoClass>) -> Option<Fault> {
    match step.answer {
        Answer::Asked(fault) => fault,
        _ => None,
    }
}

#[test]
fn same_answers(rt: HostRuntime) -> Result<(), Fail> {
    let slots = [None, Some('a'), None, Some('b')];
    let packets = Packets::of(&slots, CodesEnding::InputIo)?;
    let mut left = Stash::new(packets);
    let mut codes = Codes::new();
    codes.load(&[0x61, 0x62], CodesEnding::InputIo)?;
    let mut right = Stash::new(codes);
    let mut one = [
        Step::new(Call::Added(9)),
        Step::new(Call::LookCh),
        Step::new(Call::Read),
        Step::new(Call::Read),
        Step::new(Call::Read),
    ];
    let mut two = [
        Step::new(Call::LookCh),
        Step::new(Call::Read),
        Step::new(Call::Read),
        Step::new(Call::Read),
    ];
    let (held, beside) = receive_beside(&mut left, &mut right, &mut one, &mut two, None, None);
    let _ = Reading::close_held(held, &mut left);
    let _ = Reading::close_held(beside, &mut right);
    assert_eq!(rt; character(&one[1]), Some('a'));
    assert_eq!(rt; character(&one[3]), Some('b'));
    assert_eq!(rt; character(&one[4]), Some('\0'));
    assert_eq!(rt; character(&one[1]), character(&two[0]));
    assert_eq!(rt; character(&one[2]), character(&two[1]));
    assert_eq!(rt; character(&one[3]), character(&two[2]));
    assert_eq!(rt; character(&one[4]), character(&two[3]));
    Ok(())
}

fn asked_twice() -> [Step<NoClass>; 3] {
    [
        Step::new(Call::SkipN(3)),
        Step::new(Call::TakeSourceError),
        Step::new(Call::TakeSourceError),
    ]
}

#[test]
fn fault_once(rt: HostRuntime) -> Result<(), Fail> {
    let slots = [Some('a'), None, Some('b'), None];
    let packets = Packets::of(&slots, CodesEnding::InputIo)?;
    let mut left = Stash::new(packets);
    let mut codes = Codes::new();
    codes.load(&[0x61, 0x62], CodesEnding::InputIo)?;
    let mut right = Stash::new(codes);
    let mut one = asked_twice();
    let mut two = asked_twice();
    let (held, beside) = receive_beside(&mut left, &mut right, &mut one, &mut two, None, None);
    let _ = Reading::close_held(held, &mut left);
    let _ = Reading::close_held(beside, &mut right);
    assert_eq!(rt; fault(&one[1]), Some(LOST));
    assert_eq!(rt; fault(&one[2]), None);
    assert_eq!(rt; fault(&two[1]), Some(LOST));
    assert_eq!(rt; fault(&two[2]), None);
    Ok(())
}

#[test]
fn met_early(rt: HostRuntime) -> Result<(), Fail> {
    let slots = [Some('a'), Some('b')];
    let packets = Packets::of(&slots, CodesEnding::InputIo)?;
    let stash = Stash::new(packets);
    assert_eq!(rt; stash.met_fault(), Some(LOST));
    assert_eq!(rt; stash.peek_nth(1), 'b');
    Ok(())
}

#[test]
fn skipped_to_quote(rt: HostRuntime) -> Result<(), Fail> {
    let slots = [Some('a'), None, Some('\''), Some('b'), Some('"'), Some('c')];
    let packets = Packets::of(&slots, CodesEnding::Clean)?;
    let mut stash = Stash::new(packets);
    assert_eq!(rt; skip_while(&mut stash, &UntilQuote::new('"')), 3);
    assert_eq!(rt; stash.peek_nth(0), '"');
    Ok(())
}

// A class from outside stands under the theorem of two lists.
#[test]
fn quote_beside(rt: HostRuntime) -> Result<(), Fail> {
    let slots = [Some('a'), None, Some('"'), Some('b')];
    let packets = Packets::of(&slots, CodesEnding::Clean)?;
    let mut left = Stash::new(packets);
    let mut codes = Codes::new();
    codes.load(&[0x61, 0x22, 0x62], CodesEnding::Clean)?;
    let mut right = Stash::new(codes);
    let skip = Call::Scan(ScanCall::SkipRun(SkipCall::While(UntilQuote::new('"'))));
    let mut one = [Step::new(skip), Step::new(Call::Read)];
    let mut two = [Step::new(skip), Step::new(Call::Read)];
    let (held, beside) = receive_beside(&mut left, &mut right, &mut one, &mut two, None, None);
    let _ = Reading::close_held(held, &mut left);
    let _ = Reading::close_held(beside, &mut right);
    assert!(rt; matches!(one[0].answer, Answer::Count(1)));
    assert!(rt; matches!(two[0].answer, Answer::Count(1)));
    assert!(rt; matches!(one[1].answer, Answer::Character('"')));
    assert!(rt; matches!(two[1].answer, Answer::Character('"')));
    Ok(())
}

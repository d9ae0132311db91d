//! Lists on two receivers, by their own scanning calls.

use crate::lists::{LOST, character, fault};
use calls::{Call, Step};
use input::ticket::Reading;
use reading::list::side_by_side_scanning;
use receiver::{Packets, Stash};
use source::{Codes, CodesEnding};
use std::test::*;

#[test]
fn two_receivers(rt: HostRuntime) -> Result<(), Fail> {
    let slots = [None, Some('a'), None, Some('b')];
    let packets = Packets::of(&slots, CodesEnding::InputIo)?;
    let mut left = Stash::new(packets);
    let mut codes = Codes::new();
    codes.load(&[0x61, 0x62], CodesEnding::InputIo)?;
    let mut right = Stash::new(codes);
    let mut one = [
        Step::new(Call::Added(9)),
        Step::new(Call::LookCh),
        Step::new(Call::Read),
        Step::new(Call::Read),
        Step::new(Call::Read),
    ];
    let mut two = [
        Step::new(Call::LookCh),
        Step::new(Call::Read),
        Step::new(Call::Read),
        Step::new(Call::Read),
    ];
    let (held, beside) = side_by_side_scanning(
        &mut left, &mut right, &mut one, &mut two, None, None,
    );
    let _ = Reading::close_held(held, &mut left);
    let _ = Reading::close_held(beside, &mut right);
    assert_eq!(rt; character(&one[1]), Some('a'));
    assert_eq!(rt; character(&one[3]), Some('b'));
    assert_eq!(rt; character(&one[4]), Some('\0'));
    assert_eq!(rt; character(&one[1]), character(&two[0]));
    assert_eq!(rt; character(&one[2]), character(&two[1]));
    assert_eq!(rt; character(&one[3]), character(&two[2]));
    assert_eq!(rt; character(&one[4]), character(&two[3]));
    Ok(())
}

#[test]
fn two_receivers_that_fail(rt: HostRuntime) -> Result<(), Fail> {
    let slots = [Some('a'), None, Some('b'), None];
    let packets = Packets::of(&slots, CodesEnding::InputIo)?;
    let mut left = Stash::new(packets);
    let mut codes = Codes::new();
    codes.load(&[0x61, 0x62], CodesEnding::InputIo)?;
    let mut right = Stash::new(codes);
    let mut one = [
        Step::new(Call::SkipN(3)),
        Step::new(Call::TakeSourceError),
        Step::new(Call::TakeSourceError),
    ];
    let mut two = [
        Step::new(Call::SkipN(3)),
        Step::new(Call::TakeSourceError),
        Step::new(Call::TakeSourceError),
    ];
    let (held, beside) = side_by_side_scanning(
        &mut left, &mut right, &mut one, &mut two, None, None,
    );
    let _ = Reading::close_held(held, &mut left);
    let _ = Reading::close_held(beside, &mut right);
    assert_eq!(rt; fault(&one[1]), Some(LOST));
    assert_eq!(rt; fault(&one[2]), None);
    assert_eq!(rt; fault(&two[1]), Some(LOST));
    assert_eq!(rt; fault(&two[2]), None);
    Ok(())
}

//! Each once, at a concrete type.

use crate::decimal::{fetch_decimal, skip_decimal};
use crate::keys::Keys;
use crate::lent::{Lent, skip_lent};
use crate::tally::Tally;
use reader::{FallibleBufferedInput, Fault, FaultKind, Input, Scan, StrInput};
use std::test::Fail;

#[test]
fn keys_by_ring(rt: HostRuntime) -> Result<(), Fail> {
    let mut ring = FallibleBufferedInput::new(Keys::of(&[1, 2, 30])?);
    assert_eq!(rt; skip_decimal(&mut ring), 2);
    let fault = Fault {
        kind: FaultKind::InputIo,
        place: 2,
    };
    assert_eq!(rt; ring.take_source_error(), Some(fault));
    Ok(())
}

#[test]
fn wrapped(rt: HostRuntime) -> Result<(), Fail> {
    let mut card = StrInput::new();
    card.load(b"  -12.5 C")?;
    let mut tally = Tally::new(Lent::new(&mut card));
    assert_eq!(rt; tally.skip_while_blank(), 2);
    assert_eq!(rt; tally.calls(), 1);
    skip_lent(&mut tally);
    let mut room = [0; 8];
    assert_eq!(rt; fetch_decimal(&mut card, &mut room, 0).count, 4);
    assert_eq!(rt; &room[..4], b"12.5".as_slice());
    Ok(())
}

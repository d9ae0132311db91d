//! The worked examples of tests, askings and endings, on slice and ring.

use buffered::FallibleBufferedInput;
use error::{Fault, FaultKind, Refusal};
use input::ticket::Reading;
use input::{Closing, Input, calls};
use source::{Codes, CodesEnding};
use std::test::*;
use str_input::StrInput;

// A marker at the end, and one that goes on.
fn finds_marker<I: Input>(input: &mut I, start: bool) -> bool {
    input.lookahead(4);
    calls::next_is_document_start(input) == Ok(start)
        && calls::next_is_document_indicator(input) == Ok(start)
        && calls::next_is_document_end(input) == Ok(false)
}

#[test]
fn markers(rt: HostRuntime) -> Result<(), Fail> {
    let mut slice = StrInput::new();
    slice.load(b"---")?;
    assert!(rt; finds_marker(&mut slice, true));
    slice.load(b"---a")?;
    assert!(rt; finds_marker(&mut slice, false));
    let mut source = Codes::new();
    source.load(&[0x2D, 0x2D, 0x2D], CodesEnding::Clean)?;
    let mut ring = FallibleBufferedInput::new(source);
    assert_eq!(rt;
        calls::next_is_document_start(&ring),
        Err(Refusal::NarrowWindow)
    );
    assert!(rt; finds_marker(&mut ring, true));
    let mut other = Codes::new();
    other.load(&[0x2D, 0x2D, 0x2D, 0x61], CodesEnding::Clean)?;
    let mut ring = FallibleBufferedInput::new(other);
    assert!(rt; finds_marker(&mut ring, false));
    Ok(())
}

// NUL and then z: not the end.
#[test]
fn nul_is_not_the_end(rt: HostRuntime) -> Result<(), Fail> {
    let mut slice = StrInput::new();
    slice.load(b"\0z")?;
    slice.lookahead(1);
    assert!(rt; !slice.next_is_z());
    let mut source = Codes::new();
    source.load(&[0, 0x7A], CodesEnding::Clean)?;
    let mut ring = FallibleBufferedInput::new(source);
    ring.lookahead(1);
    assert!(rt; !ring.next_is_z());
    assert_eq!(rt; ring.raw_read_ch(), '\0');
    assert_eq!(rt; ring.raw_read_ch(), 'z');
    assert!(rt; ring.next_is_z());
    Ok(())
}

// `ab` and then a pulled line: no fault after a lookahead of 2, after one of 3 a fault with place 2, then none.
#[test]
fn a_fault_is_told_once_when_met(rt: HostRuntime) -> Result<(), Fail> {
    let mut source = Codes::new();
    source.load(&[0x61, 0x62], CodesEnding::InputIo)?;
    let mut ring = FallibleBufferedInput::new(source);
    let reading = Reading::open(&ring);
    ring.lookahead(2);
    let early = ring.take_source_error();
    ring.lookahead(3);
    let told = ring.take_source_error();
    let again = ring.take_source_error();
    ring.skip_n(2);
    let closing = reading.close(&mut ring);
    assert_eq!(rt; early, None);
    assert_eq!(rt;
        told,
        Some(Fault {
            kind: FaultKind::InputIo,
            place: 2,
        })
    );
    assert_eq!(rt; again, None);
    assert!(rt; matches!(closing, Closing::Failed(_)));
    Ok(())
}

// A break kept at window 0 is a real character: the next skip takes it, and the one after it the next.
#[test]
fn a_kept_break_is_real(rt: HostRuntime) -> Result<(), Fail> {
    let mut source = Codes::new();
    source.load(&[0x0A, 0x62], CodesEnding::Clean)?;
    let mut ring = FallibleBufferedInput::new(source);
    assert_eq!(rt; ring.raw_read_non_breakz_ch(), None);
    assert!(rt; ring.buflen() == 0);
    assert_eq!(rt; ring.peek_nth(0), '\n');
    ring.skip();
    assert_eq!(rt; ring.raw_read_ch(), 'b');
    assert_eq!(rt; ring.raw_read_ch(), '\0');
    Ok(())
}

#[test]
fn numbers_that_are_no_characters(rt: HostRuntime) -> Result<(), Fail> {
    let mut slice = StrInput::new();
    slice.load(b"ab")?;
    assert_eq!(rt;
        calls::next_char_is(&slice, 0xD800),
        Err(Refusal::NotACharacter)
    );
    assert_eq!(rt;
        calls::next_2_are(&slice, 0x61, 0x110000),
        Err(Refusal::NotACharacter)
    );
    assert_eq!(rt; calls::next_2_are(&slice, 0x61, 0x62), Ok(true));
    assert_eq!(rt; calls::next_3_are(&slice, 0x61, 0x62, 0), Ok(false));
    let mut source = Codes::new();
    source.load(&[0x61, 0x62], CodesEnding::Clean)?;
    let mut ring = FallibleBufferedInput::new(source);
    assert_eq!(rt;
        calls::next_3_are(&ring, 0xDFFF, 0x62, 0),
        Err(Refusal::NotACharacter)
    );
    assert_eq!(rt;
        calls::next_3_are(&ring, 0x61, 0x62, 0),
        Err(Refusal::NarrowWindow)
    );
    ring.lookahead(3);
    assert_eq!(rt; calls::next_3_are(&ring, 0x61, 0x62, 0), Ok(true));
    Ok(())
}

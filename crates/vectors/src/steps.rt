//! How often a ring steps its source: as often as it must, once to find the end, and never after that.

use buffered::{BufferedInput, FallibleBufferedInput};
use error::Refusal;
use input::Input;
use input::ticket::Reading;
use receiver::Stash;
use runs::Scan;
use source::{Codes, CodesEnding, Counted, TextChars};
use std::test::*;
use str_input::StrInput;

fn cable(
    codes: &[u32],
    ending: CodesEnding,
) -> Result<FallibleBufferedInput<Counted<Codes<'_>>>, Refusal> {
    let mut source = Codes::new();
    source.load(codes, ending)?;
    Ok(FallibleBufferedInput::new(Counted::new(source)))
}

// How often the source was stepped after a lookahead, and after each skip from there on.
fn steps_at(codes: &[u32], window: usize, ending: CodesEnding) -> Result<[u64; 5], Refusal> {
    let mut ring = cable(codes, ending)?;
    ring.lookahead(window);
    let looked = ring.source().steps();
    ring.skip();
    let one = ring.source().steps();
    ring.skip();
    let two = ring.source().steps();
    ring.skip();
    let three = ring.source().steps();
    ring.skip();
    Ok([looked, one, two, three, ring.source().steps()])
}

// `ab` in windows of 0, 1, 2, 3 and 16, by an ending that is clean and one that is not.
#[test]
fn skips_step_to_the_window(rt: HostRuntime) -> Result<(), Fail> {
    let ab = [0x61, 0x62];
    assert_eq!(rt; steps_at(&ab, 0, CodesEnding::Clean), Ok([0, 1, 2, 3, 3]));
    assert_eq!(rt; steps_at(&ab, 1, CodesEnding::InputIo), Ok([1, 2, 3, 3, 3]));
    assert_eq!(rt; steps_at(&ab, 2, CodesEnding::Clean), Ok([2, 3, 3, 3, 3]));
    assert_eq!(rt; steps_at(&ab, 3, CodesEnding::InputIo), Ok([3, 3, 3, 3, 3]));
    assert_eq!(rt; steps_at(&ab, 99, CodesEnding::Clean), Ok([3, 3, 3, 3, 3]));
    assert_eq!(rt; steps_at(&[], 1, CodesEnding::InputIo), Ok([1, 1, 1, 1, 1]));
    Ok(())
}

// Without a window: a told character is drawn once, a break that is kept too, and what takes nothing draws nothing.
#[test]
fn calls_step_once(rt: HostRuntime) -> Result<(), Fail> {
    let mut ring = cable(&[0x61, 0x0A, 0x62], CodesEnding::Clean)?;
    assert_eq!(rt; ring.source().steps(), 0);
    let _ = ring.next_ch();
    let _ = ring.next_ch();
    assert_eq!(rt; ring.source().steps(), 1);
    let _ = ring.raw_read_ch();
    assert_eq!(rt; ring.source().steps(), 1);
    let _ = ring.raw_read_non_breakz_ch();
    let _ = ring.raw_read_non_breakz_ch();
    assert_eq!(rt; ring.source().steps(), 2);
    ring.skip_n(0);
    let _ = ring.skip_plain_scalar_chunk(0, false);
    let _ = ring.fetch_while_is_alpha(&mut [], 1);
    assert_eq!(rt; ring.source().steps(), 2);
    Ok(())
}

// The end is found by one step, by whichever call meets it, and no later call steps.
#[test]
fn the_end_is_found_once(rt: HostRuntime) -> Result<(), Fail> {
    let mut ring = cable(&[0x61], CodesEnding::InputIo)?;
    ring.skip_n(9);
    assert_eq!(rt; ring.source().steps(), 2);
    ring.lookahead(16);
    let _ = ring.raw_read_ch();
    let _ = ring.next_ch();
    let _ = ring.skip_ws_to_eol_blanks(runs::SkipTabs::Yes);
    let _ = ring.fetch_block_scalar_line(&mut [], 0);
    let _ = ring.take_source_error();
    let reading = Reading::open(&ring);
    let _ = reading.close(&mut ring);
    assert_eq!(rt; ring.source().steps(), 2);
    let mut ring = cable(&[], CodesEnding::Clean)?;
    let reading = Reading::open(&ring);
    let _ = reading.close(&mut ring);
    assert_eq!(rt; ring.source().steps(), 1);
    Ok(())
}

#[test]
fn a_clean_source_is_stepped_as_often(rt: HostRuntime) -> Result<(), Fail> {
    let mut source = TextChars::new();
    source.load(b"ab: c")?;
    let mut ring = BufferedInput::new(Counted::new(source));
    assert_eq!(rt; ring.skip_plain_run(false), 2);
    assert_eq!(rt; ring.source().steps(), 4);
    assert_eq!(rt; ring.skip_while_non_breakz(), 3);
    assert_eq!(rt; ring.source().steps(), 6);
    ring.skip();
    assert_eq!(rt; ring.source().steps(), 6);
    Ok(())
}

// Counts far beyond what is ahead end with what is ahead.
#[test]
fn huge_counts_end(rt: HostRuntime) -> Result<(), Fail> {
    let mut slice = StrInput::new();
    slice.load("aé".as_bytes())?;
    assert_eq!(rt; slice.peek_nth(usize::MAX), '\0');
    slice.skip_n(usize::MAX);
    assert_eq!(rt; slice.next_ch(), None);
    let mut ring = cable(&[0x61, 0xE9], CodesEnding::Clean)?;
    assert_eq!(rt; ring.peek_nth(usize::MAX), '\0');
    ring.skip_n(usize::MAX);
    assert_eq!(rt; ring.next_ch(), None);
    assert_eq!(rt; ring.source().steps(), 3);
    let mut source = Codes::new();
    source.load(&[0x61, 0xE9], CodesEnding::Clean)?;
    let mut stash = Stash::new(source);
    stash.skip_n(usize::MAX);
    assert_eq!(rt; stash.next_ch(), None);
    Ok(())
}

//! Fetches up to each stop, into rooms that hold what is fetched, a byte more, and some bytes less.

use crate::calls::{Fetch, next_of};
use crate::fronts::{Front, front_of};
use crate::kinds::slice_over;
use crate::lines::{FARTHEST, FEW, FILLERS, MANY, STOPS, line_with};
use error::Refusal;
use runs::Fetched;
use std::test::*;

/// What a byte of a room is that nothing was written to.
const EMPTY: u8 = 0xEE;

/// How many bytes of a room are filled before.
const START: usize = 3;

/// More bytes than any line here has, and the filled ones.
const LARGEST: usize = 320;

// Whether the front stands in the room after what was filled before, and nothing else is written.
fn holds(room: &[u8], line: &str, front: &Front) -> bool {
    let Some((before, written)) = room.split_at_checked(START) else {
        return false;
    };
    let Some((fetched, after)) = written.split_at_checked(front.bytes) else {
        return false;
    };
    before.iter().all(|byte| *byte == EMPTY)
        && line.as_bytes().get(..front.bytes) == Some(fetched)
        && after.iter().all(|byte| *byte == EMPTY)
}

fn is_told(fetched: Option<Fetched>, front: &Front) -> bool {
    let refusal = if front.is_cut {
        Some(Refusal::RoomFull)
    } else {
        None
    };
    match fetched {
        Some(fetched) => {
            fetched.count == front.chars
                && fetched.filled.checked_sub(START) == Some(front.bytes)
                && fetched.refusal == refusal
        }
        None => false,
    }
}

// Whether a fetch on a slice does as it should in a room of so many bytes.
fn fetches(fetch: Fetch, line: &str, size: usize) -> Result<bool, Refusal> {
    let wanted = front_of(fetch.run(), line, size.saturating_sub(START));
    let mut bytes = [EMPTY; LARGEST];
    let Some(room) = bytes.get_mut(..size) else {
        return Ok(false);
    };
    let mut slice = slice_over(line)?;
    let fetched = fetch.call(&mut slice, room, START);
    let is_right = is_told(fetched, &wanted)
        && holds(room, line, &wanted)
        && next_of(&mut slice) == wanted.next;
    Ok(is_right)
}

/// How many bytes a room is smaller than one with a byte to spare: until a character of four bytes lacks all of them.
const SMALLER: usize = 5;

fn all_fetch(line: &str) -> Result<bool, Refusal> {
    for fetch in Fetch::ALL {
        let whole = front_of(fetch.run(), line, usize::MAX);
        let spare = whole.bytes.saturating_add(START + 1);
        for less in 0..=SMALLER {
            let size = spare.saturating_sub(less).max(START);
            if !fetches(fetch, line, size)? {
                return Ok(false);
            }
        }
    }
    Ok(true)
}

#[test]
fn fetches_up_to_a_stop(rt: HostRuntime) -> Result<(), Fail> {
    for filler in FILLERS {
        for stop in STOPS {
            for count in 0..=FARTHEST {
                let line = line_with(rt.alloc(), "", filler, count, stop, MANY)?;
                assert!(rt;
                    all_fetch(line.as_str())?,
                    "{stop:?} after {count} of {filler}"
                );
            }
        }
    }
    Ok(())
}

#[test]
fn fetches_up_to_a_stop_near_the_end(rt: HostRuntime) -> Result<(), Fail> {
    for filler in FILLERS {
        for stop in STOPS {
            for count in 0..=FARTHEST {
                let line = line_with(rt.alloc(), "", filler, count, stop, FEW)?;
                assert!(rt;
                    all_fetch(line.as_str())?,
                    "{stop:?} after {count} of {filler}"
                );
            }
        }
    }
    Ok(())
}

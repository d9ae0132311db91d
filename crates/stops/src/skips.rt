//! Skips up to each stop.

use crate::calls::{Skip, next_of};
use crate::fronts::{Front, front_of};
use crate::kinds::{failing_ring_over, ring_over, slice_over};
use crate::lines::{FARTHEST, FEW, FILLERS, MANY, STOPS, line_with};
use error::Refusal;
use runs::Scan;
use std::test::*;

// Whether an input skips a front of the line, and then shows what comes after it.
fn skips<I: Scan + Drop>(skip: Skip, mut input: I, wanted: &Front) -> bool {
    skip.call(&mut input) == Some(wanted.chars) && next_of(&mut input) == wanted.next
}

fn all_skip(line: &str) -> Result<bool, Refusal> {
    for skip in Skip::ALL {
        let wanted = front_of(skip.run(), line, usize::MAX);
        let all = skips(skip, slice_over(line)?, &wanted)
            && skips(skip, ring_over(line)?, &wanted)
            && skips(skip, failing_ring_over(line)?, &wanted);
        if !all {
            return Ok(false);
        }
    }
    Ok(true)
}

#[test]
fn skips_up_to_a_stop(rt: HostRuntime) -> Result<(), Fail> {
    for filler in FILLERS {
        for stop in STOPS {
            for count in 0..=FARTHEST {
                let line = line_with(rt.alloc(), "", filler, count, stop, FEW)?;
                assert!(rt;
                    all_skip(line.as_str())?,
                    "{stop:?} after {count} of {filler}"
                );
                let line = line_with(rt.alloc(), "", filler, count, stop, MANY)?;
                assert!(rt;
                    all_skip(line.as_str())?,
                    "{stop:?} after {count} of {filler}, and more"
                );
            }
        }
    }
    Ok(())
}

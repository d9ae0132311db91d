//! Blanks up to each stop, and a comment after them up to each stop.

use crate::calls::next_of;
use crate::fronts::{Run, front_of};
use crate::kinds::{failing_ring_over, ring_over, slice_over};
use crate::lines::{FARTHEST, FEW, FILLERS, MANY, STOPS, line_with};
use error::Refusal;
use runs::{Scan, SkipTabs};
use std::test::*;

/// What a skip to the end of a line answers, and the next character then.
#[derive(Clone, Copy, PartialEq)]
struct Skipped {
    count: usize,
    /// Whether a tab and whether a space was among the blanks; nothing if a comment was not separated.
    blanks: Option<(bool, bool)>,
    next: char,
}

// What a skip answers by the definition of its run.
fn wanted_of(line: &str, tabs: SkipTabs) -> Skipped {
    let mut count: usize = 0;
    let mut found_tabs = false;
    let mut found_spaces = false;
    for c in line.chars() {
        match (c, tabs) {
            (' ', _) => found_spaces = true,
            ('\t', SkipTabs::Yes) => found_tabs = true,
            _ => break,
        }
        count = count.wrapping_add(1);
    }
    // a blank has one byte
    let rest = line.get(count..).unwrap_or("");
    let after = front_of(Run::Blank, rest, 0).next;
    if after != '#' {
        return Skipped {
            count,
            blanks: Some((found_tabs, found_spaces)),
            next: after,
        };
    }
    if count == 0 {
        return Skipped {
            count,
            blanks: None,
            next: '#',
        };
    }
    let comment = front_of(Run::Line, rest, usize::MAX);
    Skipped {
        count: count.wrapping_add(comment.chars),
        blanks: Some((found_tabs, found_spaces)),
        next: comment.next,
    }
}

fn skipped_by<I: Scan + Drop>(mut input: I, tabs: SkipTabs) -> Skipped {
    let (count, seen) = input.skip_ws_to_eol(tabs);
    let blanks = match seen {
        Ok(seen) => Some((seen.found_tabs, seen.has_valid_yaml_ws)),
        Err(_) => None,
    };
    Skipped {
        count,
        blanks,
        next: next_of(&mut input),
    }
}

fn all_skip(line: &str) -> Result<bool, Refusal> {
    for tabs in [SkipTabs::Yes, SkipTabs::No] {
        let wanted = wanted_of(line, tabs);
        let skip = skipped_by(slice_over(line)?, tabs) == wanted
            && skipped_by(ring_over(line)?, tabs) == wanted
            && skipped_by(failing_ring_over(line)?, tabs) == wanted;
        if !skip {
            return Ok(false);
        }
    }
    Ok(true)
}

/// What a line begins with, so that its rest is a comment, is none, or is one that nothing separates.
const BEGINNINGS: [&str; 4] = ["", "#", " #", " \t #"];

#[test]
fn skips_to_the_end_of_a_line(rt: HostRuntime) -> Result<(), Fail> {
    for filler in FILLERS {
        for stop in STOPS {
            for count in 0..=FARTHEST {
                for beginning in BEGINNINGS {
                    let line = line_with(rt.alloc(), beginning, filler, count, stop, FEW)?;
                    assert!(rt;
                        all_skip(line.as_str())?,
                        "{stop:?} after {count} of {filler}"
                    );
                    let line = line_with(rt.alloc(), beginning, filler, count, stop, MANY)?;
                    assert!(rt;
                        all_skip(line.as_str())?,
                        "{stop:?} after {count} of {filler}, and more"
                    );
                }
            }
        }
    }
    Ok(())
}

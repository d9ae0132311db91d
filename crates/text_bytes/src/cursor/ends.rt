//! Where runs of characters end.

ghost use Rattle.std.specs.Prelude.{◌≡◌, ◌-◌, slice_index};
ghost use Rattle.runs.specs.Runs.{goes, run_by, separates, blanks_of};
ghost use Rattle.runs.specs.Scans.{flags, flags_of};
ghost use Rattle.text_bytes.specs.Cursors.{place_of, ahead_from};
ghost use Rattle.text_bytes.specs.Ends.{Ends};
ghost use Rattle.text_bytes.specs.Spans.{Crosses};

use super::Cursor;
use crate::spans::{known_end, spaces_end};
use char_traits::class::Class;
use runs::{Colon, SkipTabs, WhitespaceResult};

/// Whether a run goes on with a character, by the place after it.
fn goes_on<C: Class>(class: &C, c: char, next: Cursor<'_>, colon: Colon) -> bool
    ensures { result ≡ goes (C.member class.now) colon c (slice_index (ahead_from next.entry) 0) }
{
    match colon {
        Colon::Free => class.has(c),
        Colon::Stops => class.has(c) && c != ':',
        Colon::Leads => class.has(c) && (c != ':' || class.has(next.nth(0))),
    }
}

/// Whether a byte is a blank that separates.
fn is_separator(byte: u8, tabs: SkipTabs) -> bool
    ensures { result ≡ separates tabs byte }
{
    match tabs {
        SkipTabs::Yes => byte == b' ' || byte == b'\t',
        SkipTabs::No => byte == b' ',
    }
}

impl<'a> Cursor<'a> {
    /// The place up to which a run is known to go on, and how many characters lie before it.
    fn past_known<C: Class>(&self, class: &C, colon: Colon) -> (Cursor<'a>, usize)
        ensures { Crosses (goes (C.member class.now) colon) self.now result.0 result.1 }
    {
        let Some(known) = class.known() else {
            return (*self, 0);
        };
        let text = self.text;
        let (place, count) = known_end(text, self.place, known, colon);
        (Cursor { text, place }, count)
    }

    /// Where the run from the place on ends, and how many characters it has.
    #[inline(always)]
    pub fn run_end<C: Class>(&self, class: &C, colon: Colon) -> (Cursor<'a>, usize)
        ensures { let go = goes (C.member class.now) colon in
            Ends self.now (run_by go (ahead_from self.now)) result.0 result.1 }
    {
        let (mut end, mut count) = self.past_known(class, colon);
        // what is not known is asked, character by character
        while let Some((c, next)) = end.first() {
            if !goes_on(class, c, next, colon) {
                break;
            }
            let (known, more) = next.past_known(class, colon);
            end = known;
            count += 1 + more;
        }
        (end, count)
    }

    /// Where the blanks from the place on end, and which kinds of them were there. Each is a byte.
    pub fn blanks_end(&self, tabs: SkipTabs) -> (Cursor<'a>, WhitespaceResult)
        ensures ends { let count = place_of result.0 - place_of self.now in
            Ends self.now (blanks_of tabs (ahead_from self.now)) result.0 count }
        ensures seen { flags result.1 ≡ flags_of (blanks_of tabs (ahead_from self.now)) }
    {
        let text = self.text;
        let mut place = self.place;
        let mut found_tabs = false;
        let mut has_valid_yaml_ws = false;
        // One pass finds the end and both flags; spaces that follow a space are seen together.
        while place < text.len() && is_separator(text[place], tabs) {
            if text[place] == b'\t' {
                found_tabs = true;
                place += 1;
            } else {
                has_valid_yaml_ws = true;
                place = spaces_end(text, place + 1);
            }
        }
        let seen = WhitespaceResult {
            found_tabs,
            has_valid_yaml_ws,
        };
        (Cursor { text, place }, seen)
    }
}

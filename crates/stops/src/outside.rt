//! A class from outside, which says what is known of it or says nothing: both are scanned to the same place.

ghost use Rattle.std.specs.Prelude.{refl};
ghost use Rattle.char_traits.specs.Chars.{digit};

use crate::lines::{FARTHEST, FEW, MANY, STOPS, line_with};
use char_traits::class::Class;
use char_traits::is_digit;
use char_traits::known::{Known, Wide};
use runs::Colon;
use std::test::*;
use text_bytes::Cursor;

/// ASCII digits.
#[derive(Clone, Copy)]
struct Digits {
    says: bool,
}

impl Class for Digits {
    ghost member = { λ _. digit };

    ghost without_nul = { λ _. refl };

    fn has(&self, c: char) -> bool {
        is_digit(c)
    }

    fn known(&self) -> Option<Known> {
        if self.says {
            Some(Known {
                low: b'0',
                high: b'9',
                wide: Wide::Asked,
                but_flow: false,
            })
        } else {
            None
        }
    }
}

const NUMBERS: &str = "0123456789012345678901234567890123456789012345678901";

/// How many digits a line begins with, as a scan by the class finds it.
fn digits_of(text: &[u8], says: bool) -> Option<(usize, usize)> {
    let start = Cursor::start(text).ok()?;
    let (end, count) = start.run_end(&Digits { says }, Colon::Free);
    Some((end.place(), count))
}

#[test]
fn a_class_from_outside_is_scanned_to_the_same_place(rt: HostRuntime) -> Result<(), Fail> {
    for stop in STOPS {
        for after in [FEW, MANY] {
            for count in 0..=FARTHEST {
                let line = line_with(rt.alloc(), "", NUMBERS, count, stop, after)?;
                for says in [true, false] {
                    assert!(rt;
                        digits_of(line.as_bytes(), says) == Some((count, count)),
                        "{stop:?} after {count} digits"
                    );
                }
            }
        }
    }
    Ok(())
}

//! A class: the characters of a decimal number.

ghost use Rattle.std.specs.Prelude.{◌≡◌, true, refl};
ghost use Rattle.reader.specs.Runs.{run_of};
ghost use Rattle.reader.specs.Scans.{scan_look, SkipsRun, Fetches};
ghost use Rattle.extend.specs.Decimal.{decimal};

use reader::{Class, Fetched, Input, fetch_while, is_digit, skip_while};

/// Digits, a point and a minus.
#[derive(Clone, Copy)]
pub struct Decimal;

impl Class for Decimal {
    /// Which characters are in it, by their numbers.
    ghost member = { λ _. decimal };

    /// NUL is not, which the definition computes.
    ghost without_nul = { λ _. refl };

    fn has(&self, c: char) -> bool {
        is_digit(c) || c == '.' || c == '-'
    }
}

/// Takes the longest run of such characters, and counts it.
pub fn skip_decimal<I: Input>(input: &mut I) -> usize
    ensures { let v = I.view input.old in
        SkipsRun true (scan_look v.manner) (run_of decimal v.ahead) result v (I.view input.new) }
{
    skip_while(input, &Decimal)
}

/// Takes the longest run of such characters, and appends it to a room.
pub fn fetch_decimal<I: Input>(input: &mut I, room: &mut [u8], filled: usize) -> Fetched
    ensures { let v = I.view input.old in
        Fetches true (scan_look v.manner) (run_of decimal v.ahead) room.old filled result room.new
        v (I.view input.new) }
{
    fetch_while(input, &Decimal, room, filled)
}

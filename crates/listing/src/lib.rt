//! A program as lines of characters.
#![tactic(auto)]

ghost use Rattle.std.specs.Prelude.{◌≡◌, ◌≤◌, length, map, IfOk, string_bytes};
ghost use Rattle.std.specs.List.{position_or_len};
ghost use Rattle.std.proofs.Math.Utf8.{encodes};
ghost use Rattle.char_traits.specs.Chars.{line_break};
ghost use Rattle.listing.specs.Lines.{break_width, Cuts, Splits, drawing_of};

use char_traits::{is_break, is_printable};
use std::alloc::{AllocError, Global};

/// How many characters a line has, and how many with its break.
#[derive(Clone, Copy, Debug, PartialEq)]
pub struct Cut {
    pub len: usize,
    pub whole: usize,
}

fn width_of_break(rest: &[char]) -> usize
    ensures { result ≡ break_width rest.now }
{
    match rest {
        ['\r', '\n', ..] => 2,
        [c, ..] if is_break(*c) => 1,
        _ => 0,
    }
}

/// How many characters stand before the first break.
fn len_of_line(chars: &[char]) -> usize
    ensures len { result ≡ position_or_len line_break chars.now }
    ensures within { result ≤ length chars.now }
{
    chars.iter().take_while(|c| !is_break(**c)).count()
}

/// The first line of some characters.
pub fn cut_line(chars: &[char]) -> Cut
    ensures { Cuts chars.now result.len result.whole }
{
    let len = len_of_line(chars);
    Cut {
        len,
        whole: len + width_of_break(&chars[len..]),
    }
}

/// The first line of some characters, and what stands after its break.
pub fn split_line(chars: &[char]) -> (&[char], &[char])
    ensures { Splits chars.now result.0.now result.1.now }
{
    let cut = cut_line(chars);
    (&chars[..cut.len], &chars[cut.whole..])
}

fn drawn_char(c: char) -> char
    ensures { result ≡ drawing_of c }
{
    if is_printable(c) { c } else { '\u{FFFD}' }
}

/// A line as a panel may draw it.
pub fn drawn_line(heap: Global, line: &[char]) -> Result<String, AllocError>
    ensures { IfOk result (λ s. string_bytes s ≡ encodes (map drawing_of line.now)) }
{
    let mut s = String::new(heap);
    for c in line {
        s.push(drawn_char(*c))?;
    }
    Ok(s)
}

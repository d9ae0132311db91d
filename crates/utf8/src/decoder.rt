//! One character out of bytes.

ghost use Rattle.std.specs.Prelude.{◌≡◌, ◌<◌, ◌%◌, [], length, drop, MatchOption};
ghost use Rattle.std.specs.Char.{len_utf8};
ghost use Rattle.utf8.specs.Table.{row1, row2, row3, row4, NoRow, RowsHave};
ghost use Rattle.utf8.specs.Decoding.{decode_number, BeginsWith, Leads, IsChar, IsIll, Decodes, IsRowOf, Returns};

/// No front of some bytes is a character.
#[derive(Clone, Copy, Debug, PartialEq, Eq)]
pub struct IllFormed;

fn is_row1(a: u8) -> bool
    ensures { result ≡ row1 a }
{
    a <= 0x7F
}

fn is_row2(a: u8, b: u8) -> bool
    ensures { result ≡ row2 a b }
{
    matches!((a, b), (0xC2..=0xDF, 0x80..=0xBF))
}

fn is_row3(a: u8, b: u8, c: u8) -> bool
    ensures { result ≡ row3 a b c }
{
    matches!(
        (a, b, c),
        (0xE0, 0xA0..=0xBF, 0x80..=0xBF)
            | (0xE1..=0xEC, 0x80..=0xBF, 0x80..=0xBF)
            | (0xED, 0x80..=0x9F, 0x80..=0xBF)
            | (0xEE..=0xEF, 0x80..=0xBF, 0x80..=0xBF)
    )
}

fn is_row4(a: u8, b: u8, c: u8, d: u8) -> bool
    ensures { result ≡ row4 a b c d }
{
    matches!(
        (a, b, c, d),
        (0xF0, 0x90..=0xBF, 0x80..=0xBF, 0x80..=0xBF)
            | (0xF1..=0xF3, 0x80..=0xBF, 0x80..=0xBF, 0x80..=0xBF)
            | (0xF4, 0x80..=0x8F, 0x80..=0xBF, 0x80..=0xBF)
    )
}

/// The bits that a byte after the first carries.
fn tail(b: u8) -> u32
    ensures { result ≡ b % 64 }
{
    b as u32 % 64
}

/// The character of which these are the bytes.
fn character(row: &[u8]) -> Option<char>
    ensures { IsRowOf row.now result }
{
    match row {
        [a] if is_row1(*a) => Some(char::from(*a)),
        [a, b] if is_row2(*a, *b) => char::from_u32((*a as u32 % 32) * 64 + tail(*b)),
        [a, b, c] if is_row3(*a, *b, *c) => char::from_u32(
            (*a as u32 % 16) * 4096 + tail(*b) * 64 + tail(*c),
        ),
        [a, b, c, d] if is_row4(*a, *b, *c, *d) => {
            char::from_u32((*a as u32 % 8) * 262144 + tail(*b) * 4096 + tail(*c) * 64 + tail(*d))
        }
        _ => None,
    }
}

/// How many bytes a character has, by the count of leading one bits of its first byte, if one begins so.
#[inline(always)]
#[tactic(auto, using(crate::proofs::Leads::row_told))]
pub fn width_of(first: u8) -> Option<usize>
    ensures leads { Leads first result }
    ensures rows { MatchOption result (NoRow first) (RowsHave first) }
{
    match first.leading_ones() {
        0 => Some(1),
        2 => Some(2),
        3 => Some(3),
        4 => Some(4),
        _ => None,
    }
}

/// The character that some bytes begin with, if a front of them is one.
#[inline(never)]
fn front(rest: &[u8]) -> Option<char>
    requires { 0 < length rest.now }
    ensures { MatchOption result (IsIll rest.now) (λ c. IsChar rest.now c (len_utf8 c)) }
{
    match width_of(rest[0]) {
        Some(width) if width <= rest.len() => character(&rest[..width]),
        _ => None,
    }
}

/// The character at a place of some bytes, and how many bytes it has. From their end on there is none.
#[inline(always)]
pub fn decode(text: &[u8], place: usize) -> Result<Option<(char, usize)>, IllFormed>
    ensures decodes { Decodes (drop place text.now) (decode_number result) }
    ensures returns { Returns (drop place text.now) (decode_number result) }
{
    if place >= text.len() {
        return Ok(None);
    }
    let first = text[place];
    // Most characters are ASCII: these are told with no call, and no slice is cut.
    if first < 0x80 {
        return Ok(Some((char::from(first), 1)));
    }
    // The call answers a character alone, which fits registers.
    match front(&text[place..]) {
        Some(c) => Ok(Some((c, c.len_utf8()))),
        None => Err(IllFormed),
    }
}

/// The character that a text begins with, if it has any. Its bytes were checked, so no test of them is made again.
#[inline(never)]
pub fn first_char(text: &str) -> Option<char>
    ensures { MatchOption result (text.now ≡ []) (BeginsWith text.now) }
{
    text.chars().next()
}

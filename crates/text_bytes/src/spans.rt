//! How far a run is known to go on, by sixteen bytes of a text at once.

ghost use Rattle.std.specs.Prelude.{◌≡◌, ◌%◌, ◌^◌, ◌<◌, ◌≤◌, ◌&&◌, true, length, map, count_ones, slice_index};
ghost use Rattle.std.specs.Simd.Lanes.{mask_l};
ghost use Rattle.char_traits.specs.Chars.{flow};
ghost use Rattle.text_bytes.specs.Spans.{begins_one, must_ask, colon_byte, unsure, lane, no_space, Spaces, Spans};

use char_traits::is_flow;
use char_traits::known::{Known, Wide};
use runs::Colon;
use std::simd::prelude::*;

/// The bytes of a block: as many as the vectors have that are in every x86-64.
const LANES: usize = 16;

/// The byte at which a run has to ask for the sake of its colon: NUL, which is in no class, for none.
fn byte_of(colon: Colon) -> u8
    ensures { result ≡ colon_byte colon }
{
    match colon {
        Colon::Free => 0,
        Colon::Stops | Colon::Leads => b':',
    }
}

/// Whether a byte begins a wide character that has to be asked.
fn is_asked(byte: u8, wide: Wide) -> bool
    ensures { result ≡ must_ask wide byte }
{
    match wide {
        Wide::Asked => byte >= 0xC0,
        Wide::Printable => byte == 0xC2 || byte == 0xEF,
        Wide::All => false,
    }
}

/// Whether a byte begins a character with which a run is not known to go on.
fn is_unsure(byte: u8, known: Known, colon: Colon) -> bool
    ensures { result ≡ unsure known colon byte }
{
    byte < known.low
        || (byte > known.high && byte < 0x80)
        || is_asked(byte, known.wide)
        || byte == byte_of(colon)
        || (known.but_flow && is_flow(char::from(byte)))
}

/// Whether a byte begins a character.
pub(crate) fn begins_one(byte: u8) -> bool
    ensures { result ≡ begins_one byte }
{
    byte < 0x80 || byte >= 0xC0
}

/// Whether each of many bytes is asked: if so, all bits of its lane are set.
#[inline(always)]
fn asked_lanes(bytes: u8x16, wide: Wide) -> u8x16
    requires { length bytes ≡ 16 }
    ensures { result ≡ map (λ b. lane (must_ask wide b)) bytes }
{
    let (set, clear) = (u8x16::splat(0xFF), u8x16::splat(0));
    match wide {
        Wide::Asked => bytes.simd_ge(u8x16::splat(0xC0)).select(set, clear),
        Wide::Printable => {
            let leads = bytes.simd_eq(u8x16::splat(0xC2)) | bytes.simd_eq(u8x16::splat(0xEF));
            leads.select(set, clear)
        }
        Wide::All => clear,
    }
}

/// Whether each of many bytes is a flow character, where a class leaves those out: if so, all bits of
/// its lane are set.
#[inline(always)]
fn flow_lanes(bytes: u8x16, but_flow: bool) -> u8x16
    requires { length bytes ≡ 16 }
    ensures { result ≡ map (λ b. lane (but_flow && flow b)) bytes }
{
    if !but_flow {
        return u8x16::splat(0);
    }
    let braces = bytes.simd_eq(u8x16::splat(b'{')) | bytes.simd_eq(u8x16::splat(b'}'));
    let closing = bytes.simd_eq(u8x16::splat(b']')) | braces;
    let brackets = bytes.simd_eq(u8x16::splat(b'[')) | closing;
    let flow = bytes.simd_eq(u8x16::splat(b',')) | brackets;
    flow.select(u8x16::splat(0xFF), u8x16::splat(0))
}

/// A bit for each byte: whether it is unsure.
#[inline(always)]
fn unsure_bits(bytes: u8x16, known: Known, colon: Colon) -> u64
    requires { length bytes ≡ 16 }
    ensures { result ≡ mask_l (map (unsure known colon) bytes) }
{
    let low = bytes.simd_lt(u8x16::splat(known.low));
    let high = bytes.simd_gt(u8x16::splat(known.high)) & bytes.simd_lt(u8x16::splat(0x80));
    let asked = asked_lanes(bytes, known.wide).simd_eq(u8x16::splat(0xFF));
    let stops = bytes.simd_eq(u8x16::splat(byte_of(colon)));
    let flow = flow_lanes(bytes, known.but_flow).simd_eq(u8x16::splat(0xFF));
    ((low | high) | ((asked | stops) | flow)).to_bitmask()
}

/// A bit for each byte: whether it begins a character.
#[inline(always)]
fn begin_bits(bytes: u8x16) -> u64
    requires { length bytes ≡ 16 }
    ensures { result ≡ mask_l (map begins_one bytes) }
{
    (bytes.simd_lt(u8x16::splat(0x80)) | bytes.simd_ge(u8x16::splat(0xC0))).to_bitmask()
}

/// A bit for each byte: whether it is no space.
#[inline(always)]
fn no_space_bits(bytes: u8x16) -> u64
    requires { length bytes ≡ 16 }
    ensures { result ≡ mask_l (map no_space bytes) }
{
    bytes.simd_ne(u8x16::splat(b' ')).to_bitmask()
}

/// How many bits are set of the lowest so many.
#[inline(always)]
fn ones_below(bits: u64, lanes: u32) -> usize
    requires { lanes ≤ 16 }
    ensures { result ≡ count_ones (bits % 2 ^ lanes) }
{
    (bits & ((1 << lanes) - 1)).count_ones() as usize
}

/// The first place from one on where a byte is unsure, or the end of the text, and how many characters
/// begin before it.
#[inline(always)]
pub(crate) fn known_end(text: &[u8], from: usize, known: Known, colon: Colon) -> (usize, usize)
    requires { from ≤ length text.now }
    ensures spans { Spans known colon text.now from result.0 result.1 }
    ensures stops { result.0 < length text.now
        → unsure known colon (slice_index text.now result.0) ≡ true }
{
    // What stops a line often stands together, as tabs and the ends of empty lines: one byte is
    // looked at before a block.
    let is_line = matches!(colon, Colon::Free);
    if is_line && from < text.len() && is_unsure(text[from], known, colon) {
        return (from, 0);
    }
    let mut at = from;
    let mut count = 0;
    if text.len() >= LANES {
        // a block is whole up to this place
        let last = text.len() - LANES;
        while at <= last {
            let bytes = u8x16::from_slice(&text[at..]);
            let unsure = unsure_bits(bytes, known, colon);
            let first = begin_bits(bytes);
            if unsure != 0 {
                let lanes = unsure.trailing_zeros();
                return (at + lanes as usize, count + ones_below(first, lanes));
            }
            at += LANES;
            count += first.count_ones() as usize;
        }
    }
    // fewer are left than a block has
    while at < text.len() && !is_unsure(text[at], known, colon) {
        count += usize::from(begins_one(text[at]));
        at += 1;
    }
    (at, count)
}

/// The end of some spaces from a place on. The last few bytes of a text are not looked at.
/// Most spaces stand alone, so one byte is looked at before a block.
#[inline(always)]
pub(crate) fn spaces_end(text: &[u8], from: usize) -> usize
    requires { from ≤ length text.now }
    ensures { Spaces text.now from result }
{
    if from < text.len() && text[from] != b' ' {
        return from;
    }
    let mut at = from;
    while at + LANES <= text.len() {
        let others = no_space_bits(u8x16::from_slice(&text[at..]));
        if others != 0 {
            return at + others.trailing_zeros() as usize;
        }
        at += LANES;
    }
    at
}

//! Scans at their limits: a marker at the very end, a comment glued to a value, and line ends.

ghost use Rattle.std.specs.Prelude.{◌≡◌, ◌+◌, ◌<◌, ◌≤◌, ◌++◌, length, take, drop, IfOk, slice_index};
ghost use Rattle.std.specs.List.{prefix_len};
ghost use Rattle.char_traits.specs.Chars.{digit};
ghost use Rattle.checklist.specs.Lines.{start_at, hash_at, line_ends, WithinLine, DigitsEnd, setpoint_at, SetpointEnd};

use char_traits::is_breakz;
use input::calls::next_is_document_start;
use runs::{Scan, SkipTabs};
use std::alloc::{AllocError, Global};

/// Whether a document start stands after so many characters.
pub fn finds_start<I: Scan>(input: &mut I, place: usize) -> bool
    ensures { result ≡ start_at (I.view input.old).ahead place }
{
    input.skip_n(place);
    input.lookahead(4);
    next_is_document_start(input).unwrap_or(false)
}

/// Whether a `#` after so many characters is not skipped as a comment, since it is glued to what stands before it.
pub fn leaves_hash<I: Scan>(input: &mut I, place: usize) -> bool
    ensures { result ≡ hash_at (I.view input.old).ahead place }
{
    input.skip_n(place);
    let (count, skipped) = input.skip_ws_to_eol(SkipTabs::Yes);
    count == 0 && skipped.is_err()
}

/// Skips as far as scans go within a line, and tells what is next.
fn next_after_skips<I: Scan>(input: &mut I) -> Option<char>
    ensures { WithinLine result (I.view input.old) (I.view input.new) }
{
    let _ = input.skip_ws_to_eol(SkipTabs::Yes);
    let _ = input.skip_plain_run(false);
    let _ = input.skip_while_non_breakz();
    input.next_ch()
}

/// Skips from line end to line end, and counts these: no skip passes one.
pub fn count_line_ends<I: Scan>(input: &mut I) -> usize
    ensures { result ≡ line_ends (I.view input.old).ahead }
{
    let mut count = 0;
    while let Some(c) = next_after_skips(input) {
        input.skip();
        if is_breakz(c) {
            count += 1;
        }
    }
    count
}

fn digits_len(bytes: &[u8]) -> usize
    ensures len { result ≡ prefix_len digit bytes.now }
    ensures within { result ≤ length bytes.now }
{
    bytes.iter().take_while(|b| b.is_ascii_digit()).count()
}

/// The place after the digits that stand at a place.
fn digits_end(bytes: &[u8], from: usize) -> usize
    requires { from ≤ length bytes.now }
    ensures ends { DigitsEnd bytes.now from result }
    ensures after { from ≤ result }
{
    from + digits_len(&bytes[from..])
}

/// Whether some bytes begin with a setpoint, a number that follows `: `.
fn begins_setpoint(bytes: &[u8]) -> bool
    ensures { result ≡ setpoint_at bytes.now 0 }
{
    matches!(bytes, [b':', b' ', digit, ..] if digit.is_ascii_digit())
}

/// The place after the first setpoint, or the end.
pub fn setpoint_end(bytes: &[u8]) -> usize
    ensures { SetpointEnd bytes.now result }
{
    match bytes.windows(3).position(|w| begins_setpoint(w)) {
        Some(place) => digits_end(bytes, place + 2),
        None => bytes.len(),
    }
}

/// Bytes put between two parts of others.
pub fn insert_at(
    heap: Global,
    bytes: &[u8],
    place: usize,
    more: &[u8],
) -> Result<Vec<u8>, AllocError>
    ensures { IfOk result (λ v. v.items
        ≡ take place bytes.now ++ (more.now ++ drop place bytes.now)) }
{
    let place = place.min(bytes.len());
    let mut all = Vec::new(heap);
    all.extend_from_slice(&bytes[0..place])?;
    all.extend_from_slice(more)?;
    all.extend_from_slice(&bytes[place..])?;
    Ok(all)
}

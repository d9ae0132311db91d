//! The calls that need no body of their own: each is written once, for every input.

ghost use Rattle.std.specs.Prelude.{◌≡◌, ◌||◌, [], ◌∷◌, ◌==◌, slice_index};
ghost use Rattle.error.specs.Numbers.{outcome};
ghost use Rattle.char_traits.specs.Chars.{line_break, breakz, blank, blank_or_breakz, flow, digit, alpha};
ghost use Rattle.input.specs.Calls.{Looks};
ghost use Rattle.input.specs.Tests.{flag, character_number, compare_number, compare_all_number, is_marker, any_marker, start_marker, end_marker, plain_goes_on};

use crate::{Input, Marker};
use char_traits::{is_alpha, is_blank, is_blank_or_breakz, is_break, is_breakz, is_digit, is_flow};
use error::Refusal;

/// The first character that is shown.
pub fn peek<I: Input>(input: &I) -> char
    ensures { result ≡ (I.shown input.now).at 0 }
{
    input.peek_nth(0)
}

/// A lookahead of 1, and then the first character, or NUL at the end.
pub fn look_ch<I: Input>(input: &mut I) -> char
    ensures looks { Looks 1 (I.view input.old) (I.view input.new) }
    ensures character { result ≡ slice_index (I.view input.old).ahead 0 }
{
    input.lookahead(1);
    peek(input)
}

/// Whether the window is 0.
pub fn buf_is_empty<I: Input>(input: &I) -> bool
    ensures { result ≡ ((I.view input.now).window == 0) }
{
    input.buflen() == 0
}

/// A blank or a break is next.
pub fn next_is_blank_or_break<I: Input>(input: &I) -> bool
    ensures { result ≡ (blank ((I.shown input.now).at 0) || line_break ((I.shown input.now).at 0)) }
{
    let c = input.peek_nth(0);
    is_blank(c) || is_break(c)
}

/// A blank, a break or NUL is next.
pub fn next_is_blank_or_breakz<I: Input>(input: &I) -> bool
    ensures { result ≡ blank_or_breakz ((I.shown input.now).at 0) }
{
    is_blank_or_breakz(input.peek_nth(0))
}

/// A blank is next.
pub fn next_is_blank<I: Input>(input: &I) -> bool
    ensures { result ≡ blank ((I.shown input.now).at 0) }
{
    is_blank(input.peek_nth(0))
}

/// A break is next.
pub fn next_is_break<I: Input>(input: &I) -> bool
    ensures { result ≡ line_break ((I.shown input.now).at 0) }
{
    is_break(input.peek_nth(0))
}

/// A break or NUL is next.
pub fn next_is_breakz<I: Input>(input: &I) -> bool
    ensures { result ≡ breakz ((I.shown input.now).at 0) }
{
    is_breakz(input.peek_nth(0))
}

/// A flow character is next.
pub fn next_is_flow<I: Input>(input: &I) -> bool
    ensures { result ≡ flow ((I.shown input.now).at 0) }
{
    is_flow(input.peek_nth(0))
}

/// A digit is next.
pub fn next_is_digit<I: Input>(input: &I) -> bool
    ensures { result ≡ digit ((I.shown input.now).at 0) }
{
    is_digit(input.peek_nth(0))
}

/// A letter, a digit, `_` or `-` is next.
pub fn next_is_alpha<I: Input>(input: &I) -> bool
    ensures { result ≡ alpha ((I.shown input.now).at 0) }
{
    is_alpha(input.peek_nth(0))
}

/// Whether a character that is next goes on with a plain scalar: no `:` that ends one and, in flow, no flow character.
pub fn next_can_be_plain_scalar<I: Input>(input: &I, in_flow: bool) -> bool
    ensures { result ≡ plain_goes_on in_flow (I.shown input.now).at }
{
    let c = input.peek_nth(0);
    let after = input.peek_nth(1);
    let stops = c == ':' && (is_blank_or_breakz(after) || (in_flow && is_flow(after)));
    !(stops || (in_flow && is_flow(c)))
}

fn character(code: u32) -> Result<char, Refusal>
    ensures { outcome (λ c. c ∷ []) result ≡ character_number code }
{
    char::from_u32(code).ok_or(Refusal::NotACharacter)
}

/// Whether the character at a place is the one of this number.
pub fn nth_char_is<I: Input>(input: &I, n: usize, code: u32) -> Result<bool, Refusal>
    ensures { outcome flag result ≡ compare_number code ((I.shown input.now).at n) }
{
    let c = character(code)?;
    Ok(input.peek_nth(n) == c)
}

/// Whether the next character is the one of this number.
pub fn next_char_is<I: Input>(input: &I, code: u32) -> Result<bool, Refusal>
    ensures { outcome flag result ≡ compare_number code ((I.shown input.now).at 0) }
{
    nth_char_is(input, 0, code)
}

/// Whether the next two characters are those of these numbers.
pub fn next_2_are<I: Input>(input: &I, first: u32, second: u32) -> Result<bool, Refusal>
    ensures { outcome flag result ≡ compare_all_number (first ∷ second ∷ []) (I.shown input.now) }
{
    let wanted = [character(first)?, character(second)?];
    input.next_are(&wanted)
}

/// Whether the next three characters are those of these numbers.
pub fn next_3_are<I: Input>(input: &I, first: u32, second: u32, third: u32) -> Result<bool, Refusal>
    ensures { outcome flag result
        ≡ compare_all_number (first ∷ second ∷ third ∷ []) (I.shown input.now) }
{
    let wanted = [character(first)?, character(second)?, character(third)?];
    input.next_are(&wanted)
}

/// Whether a document marker is next.
pub fn next_is_document_indicator<I: Input>(input: &I) -> Result<bool, Refusal>
    ensures { outcome flag result ≡ is_marker any_marker (I.shown input.now) }
{
    Ok(input.next_marker()?.is_some())
}

/// Whether `---` is next as a document marker.
pub fn next_is_document_start<I: Input>(input: &I) -> Result<bool, Refusal>
    ensures { outcome flag result ≡ is_marker start_marker (I.shown input.now) }
{
    Ok(matches!(input.next_marker()?, Some(Marker::Start)))
}

/// Whether `...` is next as a document marker.
pub fn next_is_document_end<I: Input>(input: &I) -> Result<bool, Refusal>
    ensures { outcome flag result ≡ is_marker end_marker (I.shown input.now) }
{
    Ok(matches!(input.next_marker()?, Some(Marker::End)))
}

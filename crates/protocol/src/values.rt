//! Arguments: counts, codes, flags, and bytes in hexadecimal digits.

ghost use Rattle.std.specs.Prelude.{◌≡◌, ℕ, ◌+◌, ◌*◌, ◌<◌, ◌≤◌, Bool, IfOk, codes, MatchOption};
ghost use Rattle.std.specs.Char.{digit_value};
ghost use Rattle.protocol.specs.Values.{IsNamed, truth_name, ReadsNumber, SpellsByte, Spells, SpellsSome, skip_tabs_name};

use runs::SkipTabs;
use std::alloc::{AllocError, Global};

/// A count, in decimal digits.
pub fn count_of(word: &str) -> Option<usize>
    ensures { ReadsNumber 64 10 word.now result }
{
    usize::from_str_radix(word, 10).ok()
}

/// A code, in hexadecimal digits.
pub fn code_of(word: &str) -> Option<u32>
    ensures { ReadsNumber 32 16 word.now result }
{
    u32::from_str_radix(word, 16).ok()
}

/// `true` or `false`.
pub fn truth_of(word: &str) -> Option<bool>
    ensures { IsNamed truth_name word.now result }
{
    word.parse().ok()
}

/// Whether to skip tabs: `yes` or `no`.
pub(crate) fn skip_tabs_of(word: &str) -> Option<SkipTabs>
    ensures { IsNamed skip_tabs_name word.now result }
{
    match word {
        "yes" => Some(SkipTabs::Yes),
        "no" => Some(SkipTabs::No),
        _ => None,
    }
}

fn digit_of(digit: u8) -> Option<u32>
    ensures { MatchOption result (digit_value digit < 16 → ⊥)
        (λ n. (n ≡ digit_value digit) × (n < 16)) }
{
    char::from(digit).to_digit(16)
}

fn byte_of(high: u8, low: u8) -> Option<u8>
    ensures { MatchOption result ((b : ℕ) → SpellsByte high low b → ⊥)
        (λ b. SpellsByte high low b) }
{
    let high = digit_of(high)?;
    let low = digit_of(low)?;
    Some((high * 16 + low) as u8)
}

/// Bytes, two hexadecimal digits each.
pub fn bytes_of(heap: Global, word: &[u8]) -> Result<Option<Vec<u8>>, AllocError>
    ensures { IfOk result (λ told. SpellsSome word.now told) }
{
    let (pairs, rest) = word.as_chunks::<2>();
    if !rest.is_empty() {
        return Ok(None);
    }
    let mut bytes = Vec::new(heap);
    for &[high, low] in pairs {
        match byte_of(high, low) {
            Some(byte) => bytes.push(byte)?,
            None => return Ok(None),
        }
    }
    Ok(Some(bytes))
}

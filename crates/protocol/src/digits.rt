//! Bytes and codes in hexadecimal digits.

ghost use Rattle.std.specs.Prelude.{◌≡◌, ◌<◌, [], ◌∷◌, ◌++◌, string_bytes, OnOk};
ghost use Rattle.std.specs.Char.{digit_char};
ghost use Rattle.protocol.specs.Digits.{digits_of, bytes_text};

use std::alloc::AllocError;

/// The digits, each at the place of what it is worth.
const DIGITS: &[u8; 16] = b"0123456789abcdef";

fn digit_name(digit: u8) -> char
    requires { digit < 16 }
    ensures named { result ≡ digit_char digit }
    ensures ascii { result < 128 }
{
    char::from(DIGITS[usize::from(digit)])
}

fn push_digits(out: &mut String, bytes: &[u8]) -> Result<(), AllocError>
    ensures { OnOk result (string_bytes out.new ≡ string_bytes out.old ++ digits_of bytes.now) }
{
    for &byte in bytes {
        out.push(digit_name(byte / 16))?;
        out.push(digit_name(byte % 16))?;
    }
    Ok(())
}

/// Appends bytes, two digits each, or a dash for none.
pub fn push_bytes(out: &mut String, bytes: &[u8]) -> Result<(), AllocError>
    ensures { OnOk result (string_bytes out.new ≡ string_bytes out.old ++ bytes_text bytes.now) }
{
    if bytes.is_empty() {
        return out.push_str("-");
    }
    push_digits(out, bytes)
}

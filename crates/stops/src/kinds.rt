//! New inputs over a text, of each kind.

use buffered::{BufferedInput, FallibleBufferedInput};
use error::Refusal;
use source::{ByteChars, TextChars};
use str_input::StrInput;

pub fn slice_over(text: &str) -> Result<StrInput<'_>, Refusal> {
    let mut slice = StrInput::new();
    slice.load(text.as_bytes())?;
    Ok(slice)
}

pub fn ring_over(text: &str) -> Result<BufferedInput<TextChars<'_>>, Refusal> {
    let source = TextChars::of(text.as_bytes())?;
    Ok(BufferedInput::new(source))
}

pub fn failing_ring_over(text: &str) -> Result<FallibleBufferedInput<ByteChars<'_>>, Refusal> {
    let source = ByteChars::of(text.as_bytes())?;
    Ok(FallibleBufferedInput::new(source))
}

//! The reader under one name: what a scanner on top of it needs, and what a stranger needs who brings a source, a kind of
//! input or a class. The crates below have the same words; this one has no code.
//!
//! ```
//! use reader::{ByteChars, FallibleBufferedInput, Scan, StrInput};
//!
//! // Skips the blanks ahead, by whatever it is given to read from.
//! fn indent<I: Scan>(input: &mut I) -> usize {
//!     input.skip_while_blank()
//! }
//! ```
#![tactic(auto)]

// what is read: a text as one slice, or a source behind a ring of 16 characters
pub use buffered::{BufferedInput, FallibleBufferedInput};
pub use str_input::StrInput;

// where characters come from
pub use source::{ByteChars, CODE_LIMIT, Codes, CodesEnding, Counted, TextChars, is_too_many};

// how it is read: the calls of every input, those that scan, and the ticket of a reading
pub use input::borrowed::BorrowedInput;
pub use input::calls::{
    buf_is_empty, look_ch, next_2_are, next_3_are, next_can_be_plain_scalar, next_char_is,
    next_is_alpha, next_is_blank, next_is_blank_or_break, next_is_blank_or_breakz, next_is_break,
    next_is_breakz, next_is_digit, next_is_document_end, next_is_document_indicator,
    next_is_document_start, next_is_flow, nth_char_is, peek,
};
pub use input::ticket::Reading;
pub use input::{Closing, Input, Marker};
pub use runs::calls::{fetch_while, skip_while};
pub use runs::{Fetched, Scan, SkipTabs, WhitespaceResult};

// why it stops, and why it says no
pub use error::{Ending, Fault, FaultKind, Place, Refusal, TEXT_LIMIT, is_too_long};

// what a stranger brings: a source, a kind of input, a class
pub use char_traits::class::{
    Alpha, Blank, Class, NotBreakz, PlainSafe, PlainSafeInFlow, PrintableNotBreakz, YamlNonSpace,
};
pub use char_traits::known::Known;
pub use char_traits::{
    is_alpha, is_blank, is_blank_or_breakz, is_break, is_breakz, is_digit, is_flow, is_printable,
    is_yaml_non_space,
};
pub use input::made::Made;
pub use input::shows::Shows;
pub use source::{FallibleSource, Source};

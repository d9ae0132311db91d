//! The protocol: a line of words asks for a call of an input, or for what lists do not have, and is
//! answered with a line of text.
#![tactic(auto)]

mod answer;
mod command;
mod digits;
mod line;
mod make;
mod names;
mod values;

pub use answer::{ClosingText, CodeText, FaultText, RefusalText, Reply};
pub use command::{Command, parse};
pub use digits::push_bytes;
pub use line::{push_answer, push_part, push_reply, push_room};
pub use make::{Make, parse_new};
pub use names::{Predicate, Probe};
pub use values::{bytes_of, code_of, count_of, truth_of};

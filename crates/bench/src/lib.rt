//! What the benchmark times of this reader: loops over a text, by the slice and by the rings, for a driver in Rust that has the same loops.
#![tactic(auto)]

pub mod loops;

use crate::loops::{Seen, run, run_in_flow};
use buffered::{BufferedInput, FallibleBufferedInput};
use source::{ByteChars, TextChars};
use str_input::StrInput;

/// A loop over a text as one slice. The text is checked first; one that is refused is not read.
#[unsafe(no_mangle)]
pub extern "C" fn bench_slice(task: u32, text: &[u8], count: usize, room: &mut [u8]) -> Seen {
    let mut input = StrInput::new();
    match input.load(text) {
        Ok(()) => run(task, &mut input, count, room),
        Err(_) => Seen::new(),
    }
}

/// A loop over a ring over the characters of a text, which is checked first.
#[unsafe(no_mangle)]
pub extern "C" fn bench_ring(task: u32, text: &[u8], count: usize, room: &mut [u8]) -> Seen {
    match TextChars::of(text) {
        Ok(source) => run(task, &mut BufferedInput::new(source), count, room),
        Err(_) => Seen::new(),
    }
}

/// A loop over a ring over the characters of any bytes, of which the well-formed front is found first.
#[unsafe(no_mangle)]
pub extern "C" fn bench_failing_ring(
    task: u32,
    bytes: &[u8],
    count: usize,
    room: &mut [u8],
) -> Seen {
    match ByteChars::of(bytes) {
        Ok(source) => run(task, &mut FallibleBufferedInput::new(source), count, room),
        Err(_) => Seen::new(),
    }
}

/// By tokens in flow, over a text as one slice.
#[unsafe(no_mangle)]
pub extern "C" fn bench_slice_in_flow(text: &[u8], room: &mut [u8]) -> Seen {
    let mut input = StrInput::new();
    match input.load(text) {
        Ok(()) => run_in_flow(&mut input, room),
        Err(_) => Seen::new(),
    }
}

/// A loop over a text in flow, by a ring over its characters.
#[unsafe(no_mangle)]
pub extern "C" fn bench_ring_in_flow(text: &[u8], room: &mut [u8]) -> Seen {
    match TextChars::of(text) {
        Ok(source) => run_in_flow(&mut BufferedInput::new(source), room),
        Err(_) => Seen::new(),
    }
}

/// A loop over any bytes in flow, by a ring over their characters.
#[unsafe(no_mangle)]
pub extern "C" fn bench_failing_ring_in_flow(bytes: &[u8], room: &mut [u8]) -> Seen {
    match ByteChars::of(bytes) {
        Ok(source) => run_in_flow(&mut FallibleBufferedInput::new(source), room),
        Err(_) => Seen::new(),
    }
}

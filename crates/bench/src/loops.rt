//! The loops, each written once for every input that scans.

use input::calls::next_is_break;
use runs::{Scan, SkipTabs};

/// More turns than any loop here takes: each turn but the last takes a character or more, and no text has so many.
const TURNS: usize = 70_000;

/// How many characters a loop saw, and a number that depends on each part that it saw.
#[repr(C)]
#[derive(Clone, Copy)]
pub struct Seen {
    pub chars: u64,
    pub sum: u64,
}

impl Seen {
    pub(crate) fn new() -> Seen {
        Seen { chars: 0, sum: 0 }
    }

    fn add_part(&mut self, chars: usize) {
        self.chars = self.chars.wrapping_add(chars as u64);
        self.sum = self.sum.wrapping_mul(31).wrapping_add(chars as u64);
    }

    fn add_char(&mut self, c: char) {
        self.chars = self.chars.wrapping_add(1);
        self.sum = self.sum.wrapping_add(c as u64);
    }
}

/// Skips line by line.
fn skip_lines<I: Scan>(input: &mut I) -> Seen {
    let mut seen = Seen::new();
    for _ in 0..TURNS {
        seen.add_part(input.skip_while_non_breakz());
        input.lookahead(1);
        if input.next_is_z() {
            break;
        }
        input.skip();
        seen.add_part(1);
    }
    seen
}

/// Fetches line by line.
fn fetch_lines<I: Scan>(input: &mut I, room: &mut [u8]) -> Seen {
    let mut seen = Seen::new();
    for _ in 0..TURNS {
        let line = input.fetch_block_scalar_line(room, 0);
        seen.add_part(line.count);
        input.lookahead(1);
        if input.next_is_z() {
            break;
        }
        input.skip();
        seen.add_part(1);
    }
    seen
}

/// In flow or not, told by a type, so that each has a loop of its own.
trait Context {
    fn in_flow() -> bool;
}

struct Flow;

impl Context for Flow {
    fn in_flow() -> bool {
        true
    }
}

struct Block;

impl Context for Block {
    fn in_flow() -> bool {
        false
    }
}

/// Fetches a plain run, chunk by chunk, and tells how many characters it had.
fn fetch_token<I: Scan, C: Context>(input: &mut I, room: &mut [u8], most: usize) -> usize {
    let mut count: usize = 0;
    let mut filled = 0;
    for _ in 0..TURNS {
        let (stopped, chunk) = input.fetch_plain_scalar_chunk(room, filled, most, C::in_flow());
        count = count.wrapping_add(chunk.count);
        filled = chunk.filled;
        if stopped {
            break;
        }
    }
    count
}

/// Skips blanks and comments, and fetches what stands between them.
fn fetch_tokens<I: Scan, C: Context>(input: &mut I, room: &mut [u8]) -> Seen {
    let mut seen = Seen::new();
    let most = input.bufmaxlen() - 1;
    for _ in 0..TURNS {
        let (count, skipped) = input.skip_ws_to_eol(SkipTabs::Yes);
        seen.add_part(count);
        if skipped.is_err() {
            // a comment with no blank before it
            let comment = input.fetch_block_scalar_line(room, 0);
            seen.add_part(comment.count);
        }
        input.lookahead(2);
        if input.next_is_z() {
            break;
        }
        if next_is_break(input) {
            input.skip();
            seen.add_part(1);
            continue;
        }
        let count = fetch_token::<I, C>(input, room, most);
        seen.add_part(count);
        if count == 0 {
            // the `:`, or in flow one of `,[]{}`
            input.skip();
            seen.add_part(1);
        }
    }
    seen
}

/// Reads so many characters one by one, with a window.
fn read_chars<I: Scan>(input: &mut I, window: usize, count: usize) -> Seen {
    let mut seen = Seen::new();
    input.lookahead(window);
    for _ in 0..count {
        seen.add_char(input.raw_read_ch());
    }
    seen
}

/// The loop of a number. What reads by a count reads so many characters, any other loop all. Any other number reads nothing.
pub(crate) fn run<I: Scan>(task: u32, input: &mut I, count: usize, room: &mut [u8]) -> Seen {
    match task {
        1 => skip_lines(input),
        2 => fetch_lines(input, room),
        3 => fetch_tokens::<I, Block>(input, room),
        4 => read_chars(input, 0, count),
        5 => read_chars(input, 4, count),
        _ => Seen::new(),
    }
}

/// The loop by tokens in flow. It is called by functions of its own, so that the other loops are compiled as without it.
pub(crate) fn run_in_flow<I: Scan>(input: &mut I, room: &mut [u8]) -> Seen {
    fetch_tokens::<I, Flow>(input, room)
}

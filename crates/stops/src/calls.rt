//! The scanning calls, each with the run that it takes.

use crate::fronts::Run;
use runs::{Fetched, Scan};

/// A chunk of so many is the whole of what is left.
const WHOLE: usize = 1_000;

/// A call that skips.
#[derive(Clone, Copy)]
pub enum Skip {
    Blank,
    NonBreakz,
    Plain { in_flow: bool },
    /// As a chunk, with the window that shows what follows a `:`.
    Chunk { in_flow: bool },
}

impl Skip {
    pub const ALL: [Skip; 6] = [
        Skip::Blank,
        Skip::NonBreakz,
        Skip::Plain { in_flow: false },
        Skip::Plain { in_flow: true },
        Skip::Chunk { in_flow: false },
        Skip::Chunk { in_flow: true },
    ];

    pub fn run(self) -> Run {
        match self {
            Skip::Blank => Run::Blank,
            Skip::NonBreakz => Run::Printable,
            Skip::Plain { in_flow } | Skip::Chunk { in_flow } => Run::Plain { in_flow },
        }
    }

    /// How many it takes. A chunk that was not stopped by a character would tell nothing.
    pub fn call<I: Scan>(self, input: &mut I) -> Option<usize> {
        match self {
            Skip::Blank => Some(input.skip_while_blank()),
            Skip::NonBreakz => Some(input.skip_while_non_breakz()),
            Skip::Plain { in_flow } => Some(input.skip_plain_run(in_flow)),
            Skip::Chunk { in_flow } => {
                input.lookahead(2);
                let (stopped, count) = input.skip_plain_scalar_chunk(WHOLE, in_flow);
                if stopped { Some(count) } else { None }
            }
        }
    }
}

/// A call that fetches.
#[derive(Clone, Copy)]
pub enum Fetch {
    Alpha,
    NonSpace,
    Line,
    Plain { in_flow: bool },
    /// As a chunk, with the window that shows what follows a `:`.
    Chunk { in_flow: bool },
}

impl Fetch {
    pub const ALL: [Fetch; 7] = [
        Fetch::Alpha,
        Fetch::NonSpace,
        Fetch::Line,
        Fetch::Plain { in_flow: false },
        Fetch::Plain { in_flow: true },
        Fetch::Chunk { in_flow: false },
        Fetch::Chunk { in_flow: true },
    ];

    pub fn run(self) -> Run {
        match self {
            Fetch::Alpha => Run::Alpha,
            Fetch::NonSpace => Run::NonSpace,
            Fetch::Line => Run::Line,
            Fetch::Plain { in_flow } | Fetch::Chunk { in_flow } => Run::Plain { in_flow },
        }
    }

    /// What it answers. A chunk that was not stopped by a character or the room would tell nothing.
    pub fn call<I: Scan>(self, input: &mut I, room: &mut [u8], filled: usize) -> Option<Fetched> {
        match self {
            Fetch::Alpha => Some(input.fetch_while_is_alpha(room, filled)),
            Fetch::NonSpace => Some(input.fetch_while_is_yaml_non_space(room, filled)),
            Fetch::Line => Some(input.fetch_block_scalar_line(room, filled)),
            Fetch::Plain { in_flow } => Some(input.fetch_plain_run(room, filled, in_flow)),
            Fetch::Chunk { in_flow } => {
                input.lookahead(2);
                let (stopped, fetched) = input.fetch_plain_scalar_chunk(
                    room, filled, WHOLE, in_flow,
                );
                if stopped { Some(fetched) } else { None }
            }
        }
    }
}

/// The next character.
pub fn next_of<I: Scan>(input: &mut I) -> char {
    input.lookahead(1);
    input.peek_nth(0)
}

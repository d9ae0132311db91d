//! What a scan takes, worked out from the definition of its run, character by character.

use char_traits::{
    is_alpha, is_blank, is_blank_or_breakz, is_breakz, is_flow, is_printable, is_yaml_non_space,
};

/// A run of characters.
#[derive(Clone, Copy)]
pub enum Run {
    Blank,
    Alpha,
    NonSpace,
    Printable,
    Line,
    Plain { in_flow: bool },
}

fn is_plain(c: char, in_flow: bool) -> bool {
    !is_blank_or_breakz(c) && !(in_flow && is_flow(c))
}

/// A `:` belongs to a plain run if a character that does follows.
fn goes_plain(c: char, after: char, in_flow: bool) -> bool {
    is_plain(c, in_flow) && (c != ':' || is_plain(after, in_flow))
}

fn goes(run: Run, c: char, after: char) -> bool {
    match run {
        Run::Blank => is_blank(c),
        Run::Alpha => is_alpha(c),
        Run::NonSpace => is_yaml_non_space(c),
        Run::Printable => is_printable(c) && !is_breakz(c),
        Run::Line => !is_breakz(c),
        Run::Plain { in_flow } => goes_plain(c, after, in_flow),
    }
}

/// The longest front of a text that is a run and fits into so many bytes.
#[derive(Clone, Copy)]
pub struct Front {
    pub chars: usize,
    pub bytes: usize,
    /// The character after it, or NUL at the end.
    pub next: char,
    /// Whether it is cut short since the next character does not fit.
    pub is_cut: bool,
    is_over: bool,
}

impl Front {
    fn add(&mut self, run: Run, room: usize, c: char, after: char) {
        if self.is_over {
            return;
        }
        let belongs = goes(run, c, after);
        let bytes = self.bytes.wrapping_add(c.len_utf8());
        if belongs && bytes <= room {
            self.chars = self.chars.wrapping_add(1);
            self.bytes = bytes;
        } else {
            self.is_over = true;
            self.is_cut = belongs;
            self.next = c;
        }
    }
}

pub fn front_of(run: Run, text: &str, room: usize) -> Front {
    let mut front = Front {
        chars: 0,
        bytes: 0,
        next: '\0',
        is_cut: false,
        is_over: false,
    };
    let mut last = None;
    for after in text.chars() {
        if let Some(c) = last {
            front.add(run, room, c, after);
        }
        last = Some(after);
    }
    if let Some(c) = last {
        front.add(run, room, c, '\0');
    }
    front
}

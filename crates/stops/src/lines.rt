//! The lines that are read: characters that no scan but the blanks' ends at, one that may end it, and more of the first.

use std::alloc::{AllocError, Allocator};
use std::string::String;

/// Stops stand after 0 to so many characters: past three times what is looked at together.
pub const FARTHEST: usize = 48;

/// Characters of one byte, of two, of three, of four, and of each in turn; then blanks.
pub const FILLERS: [&str; 6] = [
    "abcdefghijklmnopqrstuvwxyzabcdefghijklmnopqrstuvwxyz",
    "äöüßéèêñåøčšžäöüßéèêñåøčšžäöüßéèêñåøčšžäöüßéèêñåøčšž",
    "備前焼大皿還元焼成温度備前焼大皿還元焼成温度備前焼大皿還元焼成温度備前焼大皿還元焼成温度備前焼大皿還元焼成",
    "🔥🏺🍵🌋🔥🏺🍵🌋🔥🏺🍵🌋🔥🏺🍵🌋🔥🏺🍵🌋🔥🏺🍵🌋🔥🏺🍵🌋🔥🏺🍵🌋🔥🏺🍵🌋🔥🏺🍵🌋🔥🏺🍵🌋🔥🏺🍵🌋🔥🏺🍵🌋",
    "aé窯🔥bß焼🏺cü皿🍵aé窯🔥bß焼🏺cü皿🍵aé窯🔥bß焼🏺cü皿🍵aé窯🔥bß焼🏺cü皿🍵aé窯🔥",
    " \t  \t\t   \t \t  \t\t   \t \t  \t\t   \t \t  \t\t   \t \t  \t\t   \t",
];

/// What may end a scan, and what comes after it where that decides. Nothing is the end of the text.
pub const STOPS: [&str; 20] = [
    "", "\n", "\r", "\0", "\t", " ", "#", ":", ":x", ": ", ":\n", ":,", ",", "\u{7F}", "\u{80}",
    "\u{85}", "\u{2028}", "\u{FEFF}", "\u{FFFE}", "\u{D7FF}",
];

/// So many characters of a filler.
fn push_front<A: Allocator>(
    line: &mut String<A>,
    filler: &str,
    count: usize,
) -> Result<(), AllocError> {
    for c in filler.chars().take(count) {
        line.push(c)?;
    }
    Ok(())
}

/// How many characters of the filler come after a stop, so that the text ends near it.
pub const FEW: usize = 1;

/// How many come after a stop that is far from the end: more than are looked at together.
pub const MANY: usize = 20;

/// A line with a stop after so many characters, and so many after it. A stop that is the end has none after it.
pub fn line_with<A: Allocator>(
    alloc: A,
    beginning: &str,
    filler: &str,
    count: usize,
    stop: &str,
    after: usize,
) -> Result<String<A>, AllocError> {
    let mut line = String::new(alloc);
    line.push_str(beginning)?;
    push_front(&mut line, filler, count)?;
    line.push_str(stop)?;
    if !stop.is_empty() {
        push_front(&mut line, filler, after)?;
    }
    Ok(line)
}

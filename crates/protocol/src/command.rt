//! One line as a command.

ghost use Rattle.std.specs.Prelude.{ℕ, List, [], ◌∷◌, codes};
ghost use Rattle.protocol.specs.Forms.{Count, Code};
ghost use Rattle.protocol.specs.Commands.{ReadsCommand, AsksOf, IsLine};
ghost use Rattle.protocol.specs.Words.{words_of, words_left, TakesWord};

use crate::names::{
    Predicate, Probe, call_of_four, call_of_one, call_of_three, call_of_two, probe_of_one,
};
use crate::values::{code_of, count_of};
use calls::{Call, NoClass};
use std::str::{SplitAsciiWhitespace, from_utf8};

/// What a line asks for.
#[derive(Clone, Copy)]
pub enum Command {
    /// Nothing is asked: an empty line or a comment.
    Silent,
    Bad,
    /// A new input, whose line has yet to be read.
    New,
    /// Whether a predicate holds of the character of a code.
    Class(Predicate, u32),
    /// The size and the filled count of the next fetch's room.
    Room(usize, usize),
    /// Every byte of the last fetch's room.
    RoomBytes,
    Call(Call<NoClass>),
    Probe(Probe),
}

fn command_of_one(name: &str) -> Option<Command>
    ensures { ReadsCommand (name.now ∷ []) result }
{
    if let Some(call) = call_of_one(name) {
        return Some(Command::Call(call));
    }
    if let Some(probe) = probe_of_one(name) {
        return Some(Command::Probe(probe));
    }
    match name {
        "room_bytes" => Some(Command::RoomBytes),
        _ => None,
    }
}

fn command_of_two(name: &str, word: &str) -> Option<Command>
    ensures { ReadsCommand (name.now ∷ word.now ∷ []) result }
{
    call_of_two(name, word).map(Command::Call)
}

fn class_command(name: &str, code: u32) -> Option<Command>
    ensures { (word : List ℕ) → Code code word
        → ReadsCommand (codes "class" ∷ name.now ∷ word ∷ []) result }
{
    let predicate = name.parse().ok()?;
    Some(Command::Class(predicate, code))
}

/// The largest room that can be asked for: more than any fetch can fill, and little enough to set
/// aside.
const MOST_ROOM: usize = 1_000_000;

fn room_command(size: usize, filled: usize) -> Option<Command>
    ensures { (first second : List ℕ) → Count size first → Count filled second
        → ReadsCommand (codes "room" ∷ first ∷ second ∷ []) result }
{
    (size <= MOST_ROOM).then_some(Command::Room(size, filled))
}

fn command_of_three(name: &str, first: &str, second: &str) -> Option<Command>
    ensures { ReadsCommand (name.now ∷ first.now ∷ second.now ∷ []) result }
{
    if let Some(call) = call_of_three(name, first, second) {
        return Some(Command::Call(call));
    }
    match name {
        "slice_borrowed" => {
            let probe = Probe::SliceBorrowed(count_of(first)?, count_of(second)?);
            Some(Command::Probe(probe))
        }
        "room" => room_command(count_of(first)?, count_of(second)?),
        "class" => class_command(first, code_of(second)?),
        _ => None,
    }
}

fn command_of_four(name: &str, first: &str, second: &str, third: &str) -> Option<Command>
    ensures { ReadsCommand (name.now ∷ first.now ∷ second.now ∷ third.now ∷ []) result }
{
    call_of_four(name, first, second, third).map(Command::Call)
}

/// The first of the words that are yet to come.
#[tactic(auto, using(crate::proofs::Words::takes_word))]
pub(crate) fn next_word<'a>(words: &mut SplitAsciiWhitespace<'a>) -> Option<&'a str>
    ensures { TakesWord (words_left words.old) result (words_left words.new) }
{
    words.next()
}

/// The words of a line after its name, as a command takes four at most.
fn command_of_words(name: &str, mut words: SplitAsciiWhitespace<'_>) -> Option<Command>
    ensures { ReadsCommand (name.now ∷ words_left words.entry) result }
{
    match (
        next_word(&mut words),
        next_word(&mut words),
        next_word(&mut words),
        next_word(&mut words),
    ) {
        (None, _, _, _) => command_of_one(name),
        (Some(first), None, _, _) => command_of_two(name, first),
        (Some(first), Some(second), None, _) => command_of_three(name, first, second),
        (Some(first), Some(second), Some(third), None) => command_of_four(
            name, first, second, third,
        ),
        _ => None,
    }
}

fn command_of(text: &str) -> Command
    ensures { AsksOf (words_of text.now) result }
{
    let mut words = text.split_ascii_whitespace();
    match next_word(&mut words) {
        None => Command::Silent,
        Some(name) if name.starts_with('#') => Command::Silent,
        Some("new") => Command::New,
        Some(name) => command_of_words(name, words).unwrap_or(Command::Bad),
    }
}

/// The command that a line is.
pub fn parse(line: &[u8]) -> Command
    ensures { IsLine line.now result }
{
    from_utf8(line).map_or(Command::Bad, command_of)
}

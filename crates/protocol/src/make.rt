//! A line that asks for a new input.

ghost use Rattle.std.specs.Prelude.{[], ◌∷◌, codes, drop, IfOk};
ghost use Rattle.protocol.specs.Values.{IsNamed, ending_name};
ghost use Rattle.protocol.specs.Words.{words_of, words_left};
ghost use Rattle.protocol.specs.Makes.{ReadsBytes, ReadsCodes, AsksFor, IsNewLine};

use crate::command::next_word;
use crate::values::{bytes_of, code_of};
use source::CodesEnding;
use std::alloc::{AllocError, Global};
use std::str::{SplitAsciiWhitespace, from_utf8};

/// The input that a line asks for, with what it is to read.
#[derive(Drop)]
pub enum Make {
    /// A slice.
    Slice(Vec<u8>),
    /// A ring over the characters of a text.
    Text(Vec<u8>),
    /// A ring over any bytes.
    Bytes(Vec<u8>),
    /// A ring over codes, after which the line ends so.
    Codes(Vec<u32>, CodesEnding),
}

/// The bytes that a word stands for: a dash for none.
fn text_of(heap: Global, word: &str) -> Result<Option<Vec<u8>>, AllocError>
    ensures { IfOk result (λ told. ReadsBytes (word.now ∷ []) told) }
{
    if word == "-" {
        return Ok(Some(Vec::new(heap)));
    }
    bytes_of(heap, word.as_bytes())
}

/// The bytes that one word stands for, or none at all if there is no word.
fn bytes_in(
    heap: Global,
    mut words: SplitAsciiWhitespace<'_>,
) -> Result<Option<Vec<u8>>, AllocError>
    ensures { IfOk result (λ told. ReadsBytes (words_left words.entry) told) }
{
    match (next_word(&mut words), next_word(&mut words)) {
        (None, _) => Ok(Some(Vec::new(heap))),
        (Some(word), None) => text_of(heap, word),
        _ => Ok(None),
    }
}

/// How a list of codes ends, by its name.
fn ending_of(word: &str) -> Option<CodesEnding>
    ensures { IsNamed ending_name word.now result }
{
    match word {
        "clean" => Some(CodesEnding::Clean),
        "io" => Some(CodesEnding::InputIo),
        _ => None,
    }
}

/// The codes of these words, if each is one.
#[tactic(auto, using(crate::proofs::Words::takes_word, crate::proofs::Listing::codes_all))]
fn codes_in(heap: Global, words: SplitAsciiWhitespace<'_>) -> Result<Option<Vec<u32>>, AllocError>
    ensures { IfOk result (λ told. ReadsCodes (words_left words.entry) told) }
{
    let mut codes = Vec::new(heap);
    for word in words {
        match code_of(word) {
            Some(code) => codes.push(code)?,
            None => return Ok(None),
        }
    }
    Ok(Some(codes))
}

fn codes_make(heap: Global, mut words: SplitAsciiWhitespace<'_>) -> Result<Option<Make>, AllocError>
    ensures { IfOk result
        (λ told. AsksFor (codes "ring" ∷ codes "codes" ∷ words_left words.entry) told) }
{
    match next_word(&mut words).and_then(ending_of) {
        Some(ending) => Ok(codes_in(heap, words)?.map(|codes| Make::Codes(codes, ending))),
        None => Ok(None),
    }
}

#[tactic(auto, using(crate::proofs::Making::text_made, crate::proofs::Making::bytes_made))]
fn ring(heap: Global, mut words: SplitAsciiWhitespace<'_>) -> Result<Option<Make>, AllocError>
    ensures { IfOk result (λ told. AsksFor (codes "ring" ∷ words_left words.entry) told) }
{
    match next_word(&mut words) {
        Some("text") => Ok(bytes_in(heap, words)?.map(Make::Text)),
        Some("bytes") => Ok(bytes_in(heap, words)?.map(Make::Bytes)),
        Some("codes") => codes_make(heap, words),
        _ => Ok(None),
    }
}

#[tactic(auto, using(crate::proofs::Making::slice_made))]
fn make_of(heap: Global, text: &str) -> Result<Option<Make>, AllocError>
    ensures { IfOk result (λ told. AsksFor (drop 1 (words_of text.now)) told) }
{
    let mut words = text.split_ascii_whitespace();
    match (next_word(&mut words), next_word(&mut words)) {
        (_, Some("slice")) => Ok(bytes_in(heap, words)?.map(Make::Slice)),
        (_, Some("ring")) => ring(heap, words),
        _ => Ok(None),
    }
}

/// The input that a line with the name `new` asks for, if it is well formed.
pub fn parse_new(heap: Global, line: &[u8]) -> Result<Option<Make>, AllocError>
    ensures { IfOk result (λ told. IsNewLine line.now told) }
{
    match from_utf8(line) {
        Ok(text) => make_of(heap, text),
        Err(_) => Ok(None),
    }
}

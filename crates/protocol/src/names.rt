//! The words of calls, probes and predicates.

ghost use Rattle.std.specs.Prelude.{◌≡◌, [], ◌∷◌};
ghost use Rattle.protocol.specs.Forms.{Parses};
ghost use Rattle.protocol.specs.Names.{test_forms, scan_forms, call_forms, probe_forms};
ghost use Rattle.protocol.specs.Values.{IsNamed};

use crate::values::{code_of, count_of, skip_tabs_of, truth_of};
use calls::{Call, ClassTest, FetchCall, MarkerTest, NoClass, ScanCall, SkipCall, Test};
use std::str::FromStr;

/// A word that names none of its kind.
#[derive(Clone, Copy, Debug, PartialEq, Eq)]
pub struct UnknownName;

/// A predicate on characters: one that the scanner has, or a production of YAML.
#[derive(Clone, Copy)]
pub enum Predicate {
    Z,
    Break,
    Breakz,
    Blank,
    BlankOrBreakz,
    Digit,
    Alpha,
    Hex,
    Flow,
    Bom,
    NonBreak,
    Printable,
    NonSpace,
    Anchor,
    Word,
    Uri,
    Tag,
}

impl FromStr for Predicate {
    ghost use Rattle.std.specs.Result.{result_ok};
    ghost use Rattle.protocol.specs.Names.{predicate_name};

    type Err = UnknownName;

    ghost from_str_gives = { λ word told. IsNamed predicate_name word (result_ok told) };

    fn from_str(word: &str) -> Result<Predicate, UnknownName> {
        match word {
            "is_z" => Ok(Predicate::Z),
            "is_break" => Ok(Predicate::Break),
            "is_breakz" => Ok(Predicate::Breakz),
            "is_blank" => Ok(Predicate::Blank),
            "is_blank_or_breakz" => Ok(Predicate::BlankOrBreakz),
            "is_digit" => Ok(Predicate::Digit),
            "is_alpha" => Ok(Predicate::Alpha),
            "is_hex" => Ok(Predicate::Hex),
            "is_flow" => Ok(Predicate::Flow),
            "is_bom" => Ok(Predicate::Bom),
            "is_yaml_non_break" => Ok(Predicate::NonBreak),
            "is_printable" => Ok(Predicate::Printable),
            "is_yaml_non_space" => Ok(Predicate::NonSpace),
            "is_anchor_char" => Ok(Predicate::Anchor),
            "is_word_char" => Ok(Predicate::Word),
            "is_uri_char" => Ok(Predicate::Uri),
            "is_tag_char" => Ok(Predicate::Tag),
            _ => Err(UnknownName),
        }
    }
}

/// What is asked of an input that stands in no list: its answer is each kind's own.
#[derive(Clone, Copy)]
pub enum Probe {
    /// How many characters the window holds.
    Buflen,
    /// The window that a lookahead can always have.
    Bufmaxlen,
    /// Whether the window holds none.
    BufIsEmpty,
    /// A part of the text, from one byte to another.
    SliceBorrowed(usize, usize),
    /// How often the source below was stepped.
    Steps,
}

fn test_of_one(name: &str) -> Option<Test>
    ensures { Parses test_forms (name.now ∷ []) result }
{
    match name {
        "next_is_z" => Some(Test::Z),
        "next_is_blank_or_break" => Some(Test::Class(ClassTest::BlankOrBreak)),
        "next_is_blank_or_breakz" => Some(Test::Class(ClassTest::BlankOrBreakz)),
        "next_is_blank" => Some(Test::Class(ClassTest::Blank)),
        "next_is_break" => Some(Test::Class(ClassTest::Break)),
        "next_is_breakz" => Some(Test::Class(ClassTest::Breakz)),
        "next_is_flow" => Some(Test::Class(ClassTest::Flow)),
        "next_is_digit" => Some(Test::Class(ClassTest::Digit)),
        "next_is_alpha" => Some(Test::Class(ClassTest::Alpha)),
        "next_is_document_indicator" => Some(Test::Marker(MarkerTest::Indicator)),
        "next_is_document_start" => Some(Test::Marker(MarkerTest::Start)),
        "next_is_document_end" => Some(Test::Marker(MarkerTest::End)),
        _ => None,
    }
}

fn scan_of_one(name: &str) -> Option<ScanCall<NoClass>>
    ensures { Parses scan_forms (name.now ∷ []) result }
{
    match name {
        "skip_while_blank" => Some(ScanCall::SkipRun(SkipCall::WhileBlank)),
        "skip_while_non_breakz" => Some(ScanCall::SkipRun(SkipCall::WhileNonBreakz)),
        "fetch_while_is_alpha" => Some(ScanCall::FetchRun(FetchCall::WhileIsAlpha)),
        "fetch_while_is_yaml_non_space" => {
            Some(ScanCall::FetchRun(FetchCall::WhileIsYamlNonSpace))
        }
        "fetch_block_scalar_line" => Some(ScanCall::FetchRun(FetchCall::BlockScalarLine)),
        _ => None,
    }
}

/// The call of one word.
pub(crate) fn call_of_one(name: &str) -> Option<Call<NoClass>>
    ensures { Parses call_forms (name.now ∷ []) result }
{
    if let Some(test) = test_of_one(name) {
        return Some(Call::Test(test));
    }
    if let Some(scan) = scan_of_one(name) {
        return Some(Call::Scan(scan));
    }
    match name {
        "look_ch" => Some(Call::LookCh),
        "next_ch" => Some(Call::NextCh),
        "raw_read_ch" => Some(Call::Read),
        "raw_read_non_breakz_ch" => Some(Call::ReadNonBreakz),
        "skip" => Some(Call::Skip),
        "peek" => Some(Call::Peek),
        "take_source_error" => Some(Call::TakeSourceError),
        "open" => Some(Call::Open),
        "close" => Some(Call::Close),
        _ => None,
    }
}

fn scan_of_two(name: &str, word: &str) -> Option<ScanCall<NoClass>>
    ensures { Parses scan_forms (name.now ∷ word.now ∷ []) result }
{
    match name {
        "skip_plain_run" => Some(ScanCall::SkipRun(SkipCall::PlainRun(truth_of(word)?))),
        "fetch_plain_run" => Some(ScanCall::FetchRun(FetchCall::PlainRun(truth_of(word)?))),
        "skip_ws_to_eol" => Some(ScanCall::SkipWsToEol(skip_tabs_of(word)?)),
        "skip_ws_to_eol_blanks" => Some(ScanCall::SkipWsToEolBlanks(skip_tabs_of(word)?)),
        _ => None,
    }
}

/// The call of a name and one word more.
pub(crate) fn call_of_two(name: &str, word: &str) -> Option<Call<NoClass>>
    ensures { Parses call_forms (name.now ∷ word.now ∷ []) result }
{
    if let Some(scan) = scan_of_two(name, word) {
        return Some(Call::Scan(scan));
    }
    match name {
        "lookahead" => Some(Call::Lookahead(count_of(word)?)),
        "skip_n" => Some(Call::SkipN(count_of(word)?)),
        "peek_nth" => Some(Call::PeekNth(count_of(word)?)),
        "next_char_is" => Some(Call::Test(Test::CharIs(code_of(word)?))),
        "next_can_be_plain_scalar" => Some(Call::Test(Test::PlainScalar(truth_of(word)?))),
        _ => None,
    }
}

/// The call of a name and two words more.
pub(crate) fn call_of_three(name: &str, first: &str, second: &str) -> Option<Call<NoClass>>
    ensures { Parses call_forms (name.now ∷ first.now ∷ second.now ∷ []) result }
{
    match name {
        "nth_char_is" => Some(Call::Test(Test::NthIs(count_of(first)?, code_of(second)?))),
        "next_2_are" => Some(Call::Test(Test::TwoAre(code_of(first)?, code_of(second)?))),
        "skip_plain_scalar_chunk" => {
            let chunk = ScanCall::SkipPlainScalarChunk(count_of(first)?, truth_of(second)?);
            Some(Call::Scan(chunk))
        }
        "fetch_plain_scalar_chunk" => {
            let chunk = ScanCall::FetchPlainScalarChunk(count_of(first)?, truth_of(second)?);
            Some(Call::Scan(chunk))
        }
        _ => None,
    }
}

/// The call of a name and three words more.
pub(crate) fn call_of_four(
    name: &str,
    first: &str,
    second: &str,
    third: &str,
) -> Option<Call<NoClass>>
    ensures { Parses call_forms (name.now ∷ first.now ∷ second.now ∷ third.now ∷ []) result }
{
    match name {
        "next_3_are" => {
            let test = Test::ThreeAre(code_of(first)?, code_of(second)?, code_of(third)?);
            Some(Call::Test(test))
        }
        _ => None,
    }
}

/// The probe of one word.
pub(crate) fn probe_of_one(name: &str) -> Option<Probe>
    ensures { Parses probe_forms (name.now ∷ []) result }
{
    match name {
        "buflen" => Some(Probe::Buflen),
        "bufmaxlen" => Some(Probe::Bufmaxlen),
        "buf_is_empty" => Some(Probe::BufIsEmpty),
        "steps" => Some(Probe::Steps),
        _ => None,
    }
}

//! Predicates on characters, by name.

ghost use Rattle.std.specs.Prelude.{◌≡◌};
ghost use Rattle.player.specs.Predicates.{holds_of, AnswersClass};

use char_traits::{
    is_alpha, is_anchor_char, is_blank, is_blank_or_breakz, is_bom, is_break, is_breakz, is_digit,
    is_flow, is_hex, is_printable, is_tag_char, is_uri_char, is_word_char, is_yaml_non_break,
    is_yaml_non_space, is_z,
};
use error::Refusal;
use protocol::Predicate;

fn holds(predicate: Predicate, c: char) -> bool
    ensures { result ≡ holds_of predicate c }
{
    match predicate {
        Predicate::Z => is_z(c),
        Predicate::Break => is_break(c),
        Predicate::Breakz => is_breakz(c),
        Predicate::Blank => is_blank(c),
        Predicate::BlankOrBreakz => is_blank_or_breakz(c),
        Predicate::Digit => is_digit(c),
        Predicate::Alpha => is_alpha(c),
        Predicate::Hex => is_hex(c),
        Predicate::Flow => is_flow(c),
        Predicate::Bom => is_bom(c),
        Predicate::NonBreak => is_yaml_non_break(c),
        Predicate::Printable => is_printable(c),
        Predicate::NonSpace => is_yaml_non_space(c),
        Predicate::Anchor => is_anchor_char(c),
        Predicate::Word => is_word_char(c),
        Predicate::Uri => is_uri_char(c),
        Predicate::Tag => is_tag_char(c),
    }
}

/// Whether the predicate holds of the character of this code.
pub(crate) fn class_answer(predicate: Predicate, code: u32) -> Result<bool, Refusal>
    ensures { AnswersClass (holds_of predicate) code result }
{
    let c = char::from_u32(code).ok_or(Refusal::NotACharacter)?;
    Ok(holds(predicate, c))
}

//! Functions that tell whether a character belongs to a set of characters.
#![tactic(auto)]

ghost use Rattle.std.specs.Prelude.{◌≡◌, true, false, MatchOption};
ghost use Rattle.char_traits.specs.Chars.{z, line_break, breakz, blank, blank_or_breakz, digit, alpha, word, hex, hex_value, flow, bom, printable, yaml_non_break, yaml_non_space, anchor, uri, tag};
ghost use Rattle.char_traits.specs.Ties.{Ties};

pub mod class;
pub mod known;

/// NUL.
pub fn is_z(c: char) -> bool
    ensures { result ≡ z c }
{
    c == '\0'
}

/// A line break: line feed or carriage return.
pub fn is_break(c: char) -> bool
    ensures { result ≡ line_break c }
{
    c == '\n' || c == '\r'
}

/// A line break or NUL.
pub fn is_breakz(c: char) -> bool
    ensures { result ≡ breakz c }
{
    is_break(c) || is_z(c)
}

/// Space or tab.
pub fn is_blank(c: char) -> bool
    ensures { result ≡ blank c }
{
    c == ' ' || c == '\t'
}

/// Space, tab, a line break or NUL.
pub fn is_blank_or_breakz(c: char) -> bool
    ensures { result ≡ blank_or_breakz c }
{
    is_blank(c) || is_breakz(c)
}

/// An ASCII digit.
pub fn is_digit(c: char) -> bool
    ensures { result ≡ digit c }
{
    matches!(c, '0'..='9')
}

/// An ASCII letter or digit, `_` or `-`.
pub fn is_alpha(c: char) -> bool
    ensures { result ≡ alpha c }
{
    matches!(c, '0'..='9' | 'a'..='z' | 'A'..='Z' | '_' | '-')
}

/// A hexadecimal digit, in either case.
pub fn is_hex(c: char) -> bool
    ensures { result ≡ hex c }
{
    matches!(c, '0'..='9' | 'a'..='f' | 'A'..='F')
}

/// The value of a hexadecimal digit.
pub fn as_hex(c: char) -> Option<u32>
    ensures { MatchOption result (hex c ≡ false) (λ v. (hex c ≡ true) × (v ≡ hex_value c)) }
{
    match c {
        '0'..='9' => Some(c as u32 - '0' as u32),
        'a'..='f' => Some(c as u32 - 'a' as u32 + 10),
        'A'..='F' => Some(c as u32 - 'A' as u32 + 10),
        _ => None,
    }
}

/// A flow indicator: one of `,[]{}`.
pub fn is_flow(c: char) -> bool
    ensures { result ≡ flow c }
{
    matches!(c, ',' | '[' | ']' | '{' | '}')
}

/// The byte order mark.
pub fn is_bom(c: char) -> bool
    ensures { result ≡ bom c }
{
    c == '\u{FEFF}'
}

/// A printable character.
pub fn is_printable(c: char) -> bool
    ensures { result ≡ printable c }
{
    matches!(
        c,
        '\t' | '\n' | '\r' | ' '..='~' | '\u{85}' | '\u{A0}'..='\u{D7FF}' | '\u{E000}'..='\u{FFFD}' | '\u{10000}'..='\u{10FFFF}'
    )
}

/// A printable character that is no line break and no byte order mark.
pub fn is_yaml_non_break(c: char) -> bool
    ensures { result ≡ yaml_non_break c }
{
    is_printable(c) && !is_break(c) && !is_bom(c)
}

/// Printable characters but line breaks, the byte order mark, space and tab.
pub fn is_yaml_non_space(c: char) -> bool
    ensures { result ≡ yaml_non_space c }
{
    is_yaml_non_break(c) && !is_blank(c)
}

/// A character of an anchor's name.
pub fn is_anchor_char(c: char) -> bool
    ensures { result ≡ anchor c }
{
    is_yaml_non_space(c) && !is_flow(c)
}

/// An ASCII letter or digit, or `-`.
pub fn is_word_char(c: char) -> bool
    ensures { result ≡ word c }
{
    is_alpha(c) && c != '_'
}

/// A character of a URI.
pub fn is_uri_char(c: char) -> bool
    ensures { result ≡ uri c }
{
    is_word_char(c)
        || matches!(
            c,
            '#' | ';'
                | '/'
                | '?'
                | ':'
                | '@'
                | '&'
                | '='
                | '+'
                | '$'
                | ','
                | '_'
                | '.'
                | '!'
                | '~'
                | '*'
                | '\''
                | '('
                | ')'
                | '['
                | ']'
                | '%'
        )
}

/// A character of a tag.
pub fn is_tag_char(c: char) -> bool
    ensures { result ≡ tag c }
{
    is_uri_char(c) && !is_flow(c) && c != '!'
}

/// How the classes lie to each other.
pub fn classes_tie()
    ensures { Ties }
{}

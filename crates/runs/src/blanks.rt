//! Blanks up to the end of a line, and a comment after them.

ghost use Rattle.std.specs.Prelude.{◌≡◌, ℕ, ◌<◌, Bool, true, false};
ghost use Rattle.runs.specs.declared.Colon.TheVariants.{Free};
ghost use Rattle.runs.specs.Runs.{goes, separates};
ghost use Rattle.runs.specs.Scans.{PeeksRun, SkipsBlanks, SkipsToEol};

use crate::calls::WHOLE;
use crate::steps::skip_run;
use crate::{Colon, SkipTabs, WhitespaceResult};
use char_traits::class::NotBreakz;
use char_traits::is_blank;
use error::Refusal;
use input::Input;

fn is_separator(c: char, skip_tabs: SkipTabs) -> bool
    ensures { result ≡ separates skip_tabs c }
{
    match skip_tabs {
        SkipTabs::Yes => is_blank(c),
        SkipTabs::No => c == ' ',
    }
}

/// The next character, if it is a blank to skip.
fn next_blank<I: Input>(input: &mut I, skip_tabs: SkipTabs) -> Option<char>
    ensures { PeeksRun (goes (separates skip_tabs) Free) result (I.view input.old)
        (I.view input.new) }
{
    match input.next_ch() {
        Some(c) if is_separator(c, skip_tabs) => Some(c),
        _ => None,
    }
}

/// Takes the blanks ahead, tabs only if they are allowed, and tells which there were.
pub fn skip_blanks<I: Input>(input: &mut I, skip_tabs: SkipTabs) -> (usize, WhitespaceResult)
    ensures skips { SkipsBlanks skip_tabs result (I.view input.old) (I.view input.new) }
    ensures looked { 0 < (I.view input.new).window }
{
    input.lookahead(1);
    let mut count = 0;
    let mut found_tabs = false;
    let mut has_valid_yaml_ws = false;
    while let Some(c) = next_blank(input, skip_tabs) {
        found_tabs |= c == '\t';
        has_valid_yaml_ws |= c == ' ';
        input.skip();
        count += 1;
    }
    let seen = WhitespaceResult {
        found_tabs,
        has_valid_yaml_ws,
    };
    (count, seen)
}

/// Skips spaces, and tabs if asked, and then a comment, if it follows at least one of them.
#[tactic(auto, using(crate::proofs::Eol::bare_comment))]
pub fn skip_to_eol<I: Input>(
    input: &mut I,
    skip_tabs: SkipTabs,
) -> (usize, Result<WhitespaceResult, Refusal>)
    ensures { SkipsToEol skip_tabs result (I.view input.old) (I.view input.new) }
{
    let (blanks, seen) = skip_blanks(input, skip_tabs);
    if input.peek_nth(0) != '#' {
        return (blanks, Ok(seen));
    }
    if blanks == 0 {
        return (0, Err(Refusal::CommentNotSeparated));
    }
    let comment = skip_run(input, &NotBreakz, Colon::Free, WHOLE);
    (blanks + comment, Ok(seen))
}

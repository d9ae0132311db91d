//! Sets of characters that a scan can run over.

ghost use Rattle.std.specs.Prelude.{◌≡◌, ℕ, Bool, true, false, refl, IfSome, Some};
ghost use Rattle.char_traits.specs.Chars.{blank, alpha, yaml_non_space, not_breakz, printable_not_breakz, plain_safe};
ghost use Rattle.char_traits.specs.Known.{Knows, printable_from, all_from, without_flow};

use crate::known::Known;
use crate::{
    is_alpha, is_blank, is_blank_or_breakz, is_breakz, is_flow, is_printable, is_yaml_non_space,
};

/// A set of characters, told by a value.
pub trait Class {
    /// Which characters are in it, by their numbers.
    ghost member: { Self → ℕ → Bool };

    /// Whether a character is in it.
    fn has(&self, c: char) -> bool
        ensures { result ≡ member self.now c };

    /// A law: NUL is not in it. It is what a peek shows past the end, so that no `:` that stands last belongs to a
    /// plain run. No scan ends by it: each asks for the next character.
    ghost without_nul: { (class : Self) → member class 0 ≡ false };

    /// Characters that are known to be in it, so that a scan need not ask for each; none where nothing is said.
    fn known(&self) -> Option<Known>
        ensures { IfSome result (Knows (member self.now)) }
    {
        None
    }
}

/// Space and tab.
#[derive(Clone, Copy)]
pub struct Blank;

impl Class for Blank {
    ghost member = { λ _. blank };

    ghost without_nul = { λ _. refl };

    fn has(&self, c: char) -> bool {
        is_blank(c)
    }
}

/// ASCII letters and digits, `_` and `-`.
#[derive(Clone, Copy)]
pub struct Alpha;

impl Class for Alpha {
    ghost member = { λ _. alpha };

    ghost without_nul = { λ _. refl };

    fn has(&self, c: char) -> bool {
        is_alpha(c)
    }
}

/// Printable characters that are no break, no blank and no byte order mark.
#[derive(Clone, Copy)]
pub struct YamlNonSpace;

impl Class for YamlNonSpace {
    ghost member = { λ _. yaml_non_space };

    ghost without_nul = { λ _. refl };

    fn has(&self, c: char) -> bool {
        is_yaml_non_space(c)
    }

    fn known(&self) -> Option<Known>
        ensures knows { IfSome result (Knows yaml_non_space) }
        ensures says { result ≡ Some (printable_from 0x21) }
    {
        Some(Known::printable_from(b'!'))
    }
}

/// All characters but breaks and NUL.
#[derive(Clone, Copy)]
pub struct NotBreakz;

impl Class for NotBreakz {
    ghost member = { λ _. not_breakz };

    ghost without_nul = { λ _. refl };

    fn has(&self, c: char) -> bool {
        !is_breakz(c)
    }

    fn known(&self) -> Option<Known>
        ensures knows { IfSome result (Knows not_breakz) }
        ensures says { result ≡ Some (all_from 0x20) }
    {
        Some(Known::all_from(b' '))
    }
}

/// Printable characters that are no break.
#[derive(Clone, Copy)]
pub struct PrintableNotBreakz;

impl Class for PrintableNotBreakz {
    ghost member = { λ _. printable_not_breakz };

    ghost without_nul = { λ _. refl };

    fn has(&self, c: char) -> bool {
        is_printable(c) && !is_breakz(c)
    }

    fn known(&self) -> Option<Known>
        ensures knows { IfSome result (Knows printable_not_breakz) }
        ensures says { result ≡ Some (printable_from 0x20) }
    {
        Some(Known::printable_from(b' '))
    }
}

/// Characters of a plain scalar outside flow: no blank, no break and no NUL.
#[derive(Clone, Copy)]
pub struct PlainSafe;

impl Class for PlainSafe {
    ghost member = { λ _. plain_safe false };

    ghost without_nul = { λ _. refl };

    fn has(&self, c: char) -> bool {
        !is_blank_or_breakz(c)
    }

    fn known(&self) -> Option<Known>
        ensures knows { IfSome result (Knows (plain_safe false)) }
        ensures says { result ≡ Some (all_from 0x21) }
    {
        Some(Known::all_from(b'!'))
    }
}

/// Characters of a plain scalar in flow: those outside flow but the flow characters.
#[derive(Clone, Copy)]
pub struct PlainSafeInFlow;

impl Class for PlainSafeInFlow {
    ghost member = { λ _. plain_safe true };

    ghost without_nul = { λ _. refl };

    fn has(&self, c: char) -> bool {
        !is_blank_or_breakz(c) && !is_flow(c)
    }

    fn known(&self) -> Option<Known>
        ensures knows { IfSome result (Knows (plain_safe true)) }
        ensures says { result ≡ Some (without_flow (all_from 0x21)) }
    {
        Some(Known::all_from(b'!').but_flow())
    }
}

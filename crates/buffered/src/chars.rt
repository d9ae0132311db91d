//! A failing source as a source that ends clean.

ghost use Rattle.std.specs.Prelude.{◌≡◌, true, is_some, Some, None};
ghost use Rattle.source.specs.Met.{final_ending};
ghost use Rattle.source.specs.Steps.{Gives};

use error::Ending;
use source::{FallibleSource, Source};

/// The characters of a failing source, and its ending once that was met: so one ring serves both kinds of source.
#[derive(Drop)]
pub(crate) struct FallibleChars<F: FallibleSource> {
    below: F,
    ended: Option<Ending>,
    ghost same: { final_ending ended (F.ending below) ≡ F.ending below },
}

impl<F: FallibleSource> FallibleChars<F> {
    pub(crate) fn new(below: F) -> FallibleChars<F>
        ensures below { result.below ≡ below }
        ensures ended { result.ended ≡ None }
    {
        FallibleChars { below, ended: None }
    }

    #[inline(always)]
    pub(crate) fn below(&self) -> &F
        ensures { result.now ≡ self.now.below }
    {
        &self.below
    }

    pub(crate) fn into_below(self) -> F
        ensures { result ≡ self.below }
    {
        self.below
    }

    /// Its ending, once that was met.
    pub(crate) fn kept_ending(&self) -> Option<Ending>
        ensures { is_some self.now.ended ≡ true → result ≡ Some (F.ending self.now.below) }
    {
        self.ended
    }
}

impl<F: FallibleSource> Source for FallibleChars<F> {
    ghost ahead = { λ s. F.ahead s.below };

    ghost kept = { λ s. F.ending s.below };

    ghost ended = { λ s. is_some s.ended };

    ghost characters = { λ s. F.characters s.below };

    ghost short = { λ s. F.short s.below };

    // The feed steps it no more once its end was met, so that no test is made before each step.
    #[inline(always)]
    fn step(&mut self) -> Option<char>
        ensures gives { Gives result (F.ahead self.old.below) (F.ahead self.new.below) }
        ensures keeps { F.ending self.new.below ≡ F.ending self.old.below }
        ensures ends { result ≡ None → is_some self.new.ended ≡ true }
    {
        let ending = match self.below.step() {
            Ok(Some(c)) => return Some(c),
            Ok(None) => Ok(()),
            Err(fault) => Err(fault),
        };
        self.ended = Some(ending);
        None
    }
}

//! A source that counts how often it is stepped.

ghost use Rattle.std.specs.Prelude.{◌≡◌, ◌+◌, ◌-◌, ◌^◌, min, true, None, length, drop};
ghost use Rattle.source.specs.Steps.{Gives, step_number, step_of};

use crate::{FallibleSource, Source};
use error::Fault;

/// A layer over a source of either kind: the same characters and the same ending, and a count of its steps.
#[derive(Drop)]
pub struct Counted<S> {
    below: S,
    steps: u64,
}

impl<S> Counted<S> {
    /// Over a source, with no step counted yet.
    pub fn new(below: S) -> Counted<S>
        ensures below { result.below ≡ below }
        ensures none { result.steps ≡ 0 }
    {
        Counted { below, steps: 0 }
    }

    /// How often it was stepped. The count stays at the greatest number once it is there.
    pub fn steps(&self) -> u64
        ensures { result ≡ self.now.steps }
    {
        self.steps
    }

    fn count(&mut self)
        ensures below { self.new.below ≡ self.old.below }
        ensures more { self.new.steps ≡ min (2 ^ 64 - 1) (self.old.steps + 1) }
    {
        self.steps = self.steps.saturating_add(1);
    }
}

impl<S: Source> Source for Counted<S> {
    ghost ahead = { λ s. S.ahead s.below };

    ghost kept = { λ s. S.kept s.below };

    ghost ended = { λ s. S.ended s.below };

    ghost characters = { λ s. S.characters s.below };

    ghost short = { λ s. S.short s.below };

    fn step(&mut self) -> Option<char>
        ensures gives { Gives result (S.ahead self.old.below) (S.ahead self.new.below) }
        ensures keeps { S.kept self.new.below ≡ S.kept self.old.below }
        ensures ends { result ≡ None → S.ended self.new.below ≡ true }
        ensures stepped { self.new.steps ≡ min (2 ^ 64 - 1) (self.old.steps + 1) }
    {
        self.count();
        S::step(&mut self.below)
    }
}

impl<F: FallibleSource> FallibleSource for Counted<F> {
    ghost ahead = { λ s. F.ahead s.below };

    ghost ending = { λ s. F.ending s.below };

    ghost given = { λ s. F.given s.below };

    ghost characters = { λ s. F.characters s.below };

    ghost short = { λ s. F.short s.below };

    ghost placed = { λ s. F.placed s.below };

    fn step(&mut self) -> Result<Option<char>, Fault>
        ensures tells { step_number result
            ≡ step_of (F.ahead self.old.below) (F.ending self.old.below) }
        ensures drops { F.ahead self.new.below ≡ drop 1 (F.ahead self.old.below) }
        ensures same { F.ending self.new.below ≡ F.ending self.old.below }
        ensures counts { F.given self.new.below + length (F.ahead self.new.below)
            ≡ F.given self.old.below + length (F.ahead self.old.below) }
        ensures stepped { self.new.steps ≡ min (2 ^ 64 - 1) (self.old.steps + 1) }
    {
        self.count();
        F::step(&mut self.below)
    }
}

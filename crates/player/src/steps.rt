//! How a player tells how often a source was stepped.

ghost use Rattle.std.specs.Prelude.{◌≡◌, ℕ, None, Option};

use input::stepped::Stepped;

/// A way to tell it of an input.
pub(crate) trait StepCount<I> {
    // none if it has no source, or none is told of it
    ghost stepped: { I → Option ℕ };

    /// How often the source was stepped.
    fn steps(input: &I) -> Option<u64>
        ensures { result ≡ stepped input.now };
}

/// By the count of the input itself.
pub(crate) struct Counting;

/// None at all, of an input that need not count.
pub(crate) struct Uncounted;

impl<I: Stepped> StepCount<I> for Counting {
    ghost stepped = { λ input. I.stepped input };

    fn steps(input: &I) -> Option<u64> {
        input.steps()
    }
}

impl<I> StepCount<I> for Uncounted {
    ghost stepped = { λ _. None };

    fn steps(_input: &I) -> Option<u64> {
        None
    }
}

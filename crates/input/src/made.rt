//! Kinds of input that are made of something.

ghost use Rattle.std.specs.Prelude.{ℕ, ◌+◌, List, [], length, IfOk};
ghost use Rattle.error.specs.Numbers.{PlacedAt, outcome};
ghost use Rattle.input.specs.View.{Making, IsFresh};

use crate::Input;
use error::Refusal;

/// A kind of input that is made of something, which has characters and an ending: a text, or a source.
pub trait Made<S>: Input {
    ghost making: { S → Making };
    // how its making is answered, by number and values: 0 if it is made
    ghost Answers: { S → ℕ × List ℕ → Type 0 };
    // the place of a fault counts its characters, after those that were given before
    ghost placed: { (of : S)
        → PlacedAt (making of).finish ((making of).given + length (making of).chars) };

    /// A new input: all of these characters are ahead, and its ending is this one.
    fn make(of: S) -> Result<Self, Refusal>
    where
        Self: Sized,
        ensures answers { Answers of (outcome (λ _. []) result) }
        ensures fresh { IfOk result (λ x. IsFresh (making of) (Self.view x)) };
}

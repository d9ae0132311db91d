//! Any two new inputs, each taken through a list.

ghost use Rattle.std.specs.Prelude.{◌≡◌, [], MatchResult};
ghost use Rattle.error.specs.Numbers.{outcome};
ghost use Rattle.reading.specs.Reading.{log_of, SameCalls};
ghost use Rattle.reading.specs.SameReadings.{SameReadings, MadeTwo};

use crate::list::side_by_side_with;
use calls::{Scanner, Step};
use char_traits::class::Class;
use error::Refusal;
use input::made::Made;
use input::ticket::Reading;

/// Makes two inputs, each of any kind, takes each through its list, its scanning calls made in its
/// way, and closes what the lists left open. Nothing is asked of either. What a maker refuses is
/// answered by its refusal, the first one's before the second's, and the lists stay as they were.
pub fn made_side_by_side<
    C: Class + Copy,
    A,
    B: Drop,
    L: Made<A> + Drop,
    R: Made<B> + Drop,
    S: Scanner<L>,
    T: Scanner<R>,
>(a: A, b: B, one: &mut [Step<C>], other: &mut [Step<C>]) -> Result<(), Refusal>
    ensures one { SameCalls one.old one.new }
    ensures other { SameCalls other.old other.new }
    ensures answers { MadeTwo (L.Answers a) (R.Answers b) (outcome (λ _. []) result) }
    ensures beside { MatchResult result
        (λ _. SameReadings C.member L.Held R.Held (L.making a) (R.making b)
        (log_of one.old one.new) (log_of other.old other.new))
        (λ _. (one.new ≡ one.old) × (other.new ≡ other.old)) }
{
    let mut left = L::make(a)?;
    let mut right = R::make(b)?;
    let (held, beside) = side_by_side_with::<C, L, R, S, T>(
        &mut left, &mut right, one, other, None, None,
    );
    let _ = Reading::close_held(held, &mut left);
    let _ = Reading::close_held(beside, &mut right);
    Ok(())
}

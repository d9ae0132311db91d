//! A card beside a cable: one list taken through two new inputs, made of a text and of a source.
#![tactic(auto)]

ghost use Rattle.std.specs.Prelude.{◌≡◌, [], MatchResult};
ghost use Rattle.error.specs.Numbers.{outcome};
ghost use Rattle.utf8.specs.Checking.{ChecksText};
ghost use Rattle.reading.specs.Reading.{log_of, SameCalls};
ghost use Rattle.reading.specs.SameReadings.{SameReadings};
ghost use Rattle.buffered.specs.Buffered.{ring_making};
ghost use Rattle.buffered.specs.Fallible.{failing_making};
ghost use Rattle.str_input.specs.Text.{text_making};

pub mod radio;

use buffered::{BufferedInput, FallibleBufferedInput};
use calls::{Own, Step};
use char_traits::class::Class;
use error::Refusal;
use reading::made::made_side_by_side;
use source::{FallibleSource, Source};
use str_input::StrInput;

/// Takes a new slice over a text and a new ring over a failing source through a list each. Refused,
/// with the lists as they were, exactly if the bytes are no text: 1 or 2.
pub fn card_and_cable<C: Class + Copy, F: FallibleSource + Drop>(
    text: &[u8],
    cable: F,
    one: &mut [Step<C>],
    other: &mut [Step<C>],
) -> Result<(), Refusal>
    ensures one { SameCalls one.old one.new }
    ensures other { SameCalls other.old other.new }
    ensures checked { ChecksText text.now (outcome (λ _. []) result) }
    ensures beside { MatchResult result
        (λ _. SameReadings C.member (Unit {0}) F (text_making text.now)
        (failing_making F.ahead F.ending F.given cable)
        (log_of one.old one.new) (log_of other.old other.new))
        (λ _. (one.new ≡ one.old) × (other.new ≡ other.old)) }
{
    made_side_by_side::<C, &[u8], F, StrInput<'_>, FallibleBufferedInput<F>, Own, Own>(
        text, cable, one, other,
    )
}

/// Takes a list through a card and through a ring over a source that always ends clean.
pub fn card_and_ring<C: Class + Copy, S: Source + Drop>(
    text: &[u8],
    source: S,
    one: &mut [Step<C>],
    other: &mut [Step<C>],
) -> Result<(), Refusal>
    ensures one { SameCalls one.old one.new }
    ensures other { SameCalls other.old other.new }
    ensures checked { ChecksText text.now (outcome (λ _. []) result) }
    ensures beside { MatchResult result
        (λ _. SameReadings C.member (Unit {0}) S (text_making text.now) (ring_making S.ahead source)
        (log_of one.old one.new) (log_of other.old other.new))
        (λ _. (one.new ≡ one.old) × (other.new ≡ other.old)) }
{
    made_side_by_side::<C, &[u8], S, StrInput<'_>, BufferedInput<S>, Own, Own>(
        text, source, one, other,
    )
}

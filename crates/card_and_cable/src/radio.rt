//! A radio receiver beside a card: a source and an input that were written from outside.

ghost use Rattle.std.specs.Prelude.{◌≡◌, [], MatchResult};
ghost use Rattle.error.specs.Numbers.{outcome};
ghost use Rattle.utf8.specs.Checking.{ChecksText};
ghost use Rattle.reading.specs.Reading.{log_of, SameCalls};
ghost use Rattle.reading.specs.SameReadings.{SameReadings};
ghost use Rattle.receiver.specs.Packets.{packets_ahead, packets_ending, packets_given};
ghost use Rattle.receiver.specs.Stash.{stash_making};
ghost use Rattle.receiver.specs.declared.packets.Packets.{Packets as Received};
ghost use Rattle.str_input.specs.Text.{text_making};

use calls::{Own, Step};
use char_traits::class::Class;
use error::Refusal;
use reading::made::made_side_by_side;
use receiver::{Packets, Stash};
use str_input::StrInput;

/// Takes a new receiver over these packets and a new slice over a text through a list each.
/// Refused, with the lists as they were, exactly if the bytes are no text: 1 or 2.
pub fn radio_and_card<C: Class + Copy>(
    packets: Packets<'_>,
    text: &[u8],
    one: &mut [Step<C>],
    other: &mut [Step<C>],
) -> Result<(), Refusal>
    ensures one { SameCalls one.old one.new }
    ensures other { SameCalls other.old other.new }
    ensures checked { ChecksText text.now (outcome (λ _. []) result) }
    ensures beside { MatchResult result
        (λ _. SameReadings C.member Received (Unit {0})
        (stash_making packets_ahead packets_ending packets_given packets.entry)
        (text_making text.now) (log_of one.old one.new) (log_of other.old other.new))
        (λ _. (one.new ≡ one.old) × (other.new ≡ other.old)) }
{
    made_side_by_side::<C, Packets<'_>, &[u8], Stash<Packets<'_>>, StrInput<'_>, Own, Own>(
        packets, text, one, other,
    )
}

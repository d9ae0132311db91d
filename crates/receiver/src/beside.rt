//! A receiver and an input of any other kind, taken through lists.

ghost use Rattle.reading.specs.Reading.{SideBySide, side};
ghost use Rattle.receiver.specs.Packets.{packets_ahead, packets_ending};
ghost use Rattle.receiver.specs.Stash.{stash_view};

use crate::packets::Packets;
use crate::stash::Stash;
use calls::{ByCharacter, Own, Step};
use char_traits::class::Class;
use input::Input;
use input::ticket::Reading;
use reading::list::side_by_side_with;

/// Takes a receiver and another input, which need not scan, through a list each.
///
/// Lists that differ in added lookaheads alone get the same answers of inputs that have the same
/// ahead; for each of the two, nothing is lost or doubled, and the ending is told.
pub fn receive_beside<C: Class + Copy, I: Input>(
    receiver: &mut Stash<Packets<'_>>,
    other: &mut I,
    one: &mut [Step<C>],
    two: &mut [Step<C>],
    held: Option<Reading>,
    beside: Option<Reading>,
) -> (Option<Reading>, Option<Reading>)
    ensures { let view = stash_view packets_ahead packets_ending in
        SideBySide C.member
        (side (view receiver.old) one.old held) (side (view receiver.new) one.new result.0)
        (side (I.view other.old) two.old beside) (side (I.view other.new) two.new result.1) }
{
    side_by_side_with::<C, Stash<Packets<'_>>, I, Own, ByCharacter>(
        receiver, other, one, two, held, beside,
    )
}

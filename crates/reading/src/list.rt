//! Inputs taken through lists.

ghost use Rattle.std.specs.Prelude.{map};
ghost use Rattle.calls.specs.Entries.{as_step};
ghost use Rattle.reading.specs.Reading.{ReadsList, SideBySide, side};

use calls::{ByCharacter, Own, RoomlessStep, Scanner, Step, answer_to, perform};
use char_traits::class::Class;
use input::Input;
use input::ticket::Reading;
use runs::Scan;

/// Takes one input through a list; its scanning calls are made in this way. The ticket of an open
/// reading goes in, and what is open at the end comes out.
#[tactic(auto, using(crate::proofs::Runs::none))]
pub fn run_with<C: Class + Copy, I: Input, S: Scanner<I>>(
    input: &mut I,
    held: Option<Reading>,
    steps: &mut [Step<C>],
) -> Option<Reading>
    ensures { ReadsList C.member (side (I.view input.old) steps.old held)
        (side (I.view input.new) steps.new result) }
{
    let mut held = held;
    for step in steps.iter_mut() {
        held = perform::<C, I, S>(input, step, held);
    }
    held
}

/// Takes any input through a list; its scanning calls go character by character.
pub fn run<C: Class + Copy, I: Input>(
    input: &mut I,
    held: Option<Reading>,
    steps: &mut [Step<C>],
) -> Option<Reading>
    ensures { ReadsList C.member (side (I.view input.old) steps.old held)
        (side (I.view input.new) steps.new result) }
{
    run_with::<C, I, ByCharacter>(input, held, steps)
}

/// Takes an input that scans through a list, by its own scanning calls.
pub fn run_scanning<C: Class + Copy, I: Scan>(
    input: &mut I,
    held: Option<Reading>,
    steps: &mut [Step<C>],
) -> Option<Reading>
    ensures { ReadsList C.member (side (I.view input.old) steps.old held)
        (side (I.view input.new) steps.new result) }
{
    run_with::<C, I, Own>(input, held, steps)
}

/// Takes any input through a list whose calls bring no room; its scanning calls go character by
/// character.
#[tactic(auto, using(crate::proofs::Runs::none))]
pub fn run_roomless<C: Class + Copy, I: Input>(
    input: &mut I,
    held: Option<Reading>,
    steps: &mut [RoomlessStep<C>],
) -> Option<Reading>
    ensures { ReadsList C.member (side (I.view input.old) (map as_step steps.old) held)
        (side (I.view input.new) (map as_step steps.new) result) }
{
    let mut held = held;
    for step in steps.iter_mut() {
        let (answer, next) = answer_to::<C, I, ByCharacter>(input, step.call, &mut [], 0, held);
        step.answer = answer;
        held = next;
    }
    held
}

/// Takes two inputs, each of any kind, through a list each; the scanning calls of each are made in
/// its way.
///
/// Lists that differ in added lookaheads alone get the same answers, and the same bytes in their
/// rooms, of inputs that have the same ahead; for each input, what its calls took and what is still
/// ahead is what was ahead, a closing tells whole only once all is taken, and the ending is met
/// when due, told once and closed with.
pub fn side_by_side_with<C: Class + Copy, L: Input, R: Input, S: Scanner<L>, T: Scanner<R>>(
    left: &mut L,
    right: &mut R,
    one: &mut [Step<C>],
    other: &mut [Step<C>],
    held: Option<Reading>,
    beside: Option<Reading>,
) -> (Option<Reading>, Option<Reading>)
    ensures { SideBySide C.member
        (side (L.view left.old) one.old held) (side (L.view left.new) one.new result.0)
        (side (R.view right.old) other.old beside) (side (R.view right.new) other.new result.1) }
{
    let held = run_with::<C, L, S>(left, held, one);
    let beside = run_with::<C, R, T>(right, beside, other);
    (held, beside)
}

/// Takes any two inputs through a list each; their scanning calls go character by character.
pub fn side_by_side<C: Class + Copy, L: Input, R: Input>(
    left: &mut L,
    right: &mut R,
    one: &mut [Step<C>],
    other: &mut [Step<C>],
    held: Option<Reading>,
    beside: Option<Reading>,
) -> (Option<Reading>, Option<Reading>)
    ensures { SideBySide C.member
        (side (L.view left.old) one.old held) (side (L.view left.new) one.new result.0)
        (side (R.view right.old) other.old beside) (side (R.view right.new) other.new result.1) }
{
    side_by_side_with::<C, L, R, ByCharacter, ByCharacter>(left, right, one, other, held, beside)
}

/// Takes two inputs that scan through a list each, by their own scanning calls.
pub fn side_by_side_scanning<C: Class + Copy, L: Scan, R: Scan>(
    left: &mut L,
    right: &mut R,
    one: &mut [Step<C>],
    other: &mut [Step<C>],
    held: Option<Reading>,
    beside: Option<Reading>,
) -> (Option<Reading>, Option<Reading>)
    ensures { SideBySide C.member
        (side (L.view left.old) one.old held) (side (L.view left.new) one.new result.0)
        (side (R.view right.old) other.old beside) (side (R.view right.new) other.new result.1) }
{
    side_by_side_with::<C, L, R, Own, Own>(left, right, one, other, held, beside)
}

/// Takes any two inputs through a list each whose calls bring no room; their scanning calls go
/// character by character.
pub fn side_by_side_roomless<C: Class + Copy, L: Input, R: Input>(
    left: &mut L,
    right: &mut R,
    one: &mut [RoomlessStep<C>],
    other: &mut [RoomlessStep<C>],
    held: Option<Reading>,
    beside: Option<Reading>,
) -> (Option<Reading>, Option<Reading>)
    ensures { SideBySide C.member
        (side (L.view left.old) (map as_step one.old) held)
        (side (L.view left.new) (map as_step one.new) result.0)
        (side (R.view right.old) (map as_step other.old) beside)
        (side (R.view right.new) (map as_step other.new) result.1) }
{
    let open = run_roomless(left, held, one);
    (open, run_roomless(right, beside, other))
}

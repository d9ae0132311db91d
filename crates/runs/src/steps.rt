//! One run of a class, character by character.

ghost use Rattle.std.specs.Prelude.{◌≡◌, ℕ, ◌≤◌, Bool, true, false, length, take, nat_lt};
ghost use Rattle.input.specs.View.{exactly};
ghost use Rattle.runs.specs.Runs.{goes, run_by};
ghost use Rattle.runs.specs.Rooms.{part};
ghost use Rattle.runs.specs.Scans.{Sees, PeeksRun, SkipsRun, Writes};

use crate::{Colon, Fetched};
use char_traits::class::Class;
use input::Input;
use utf8::encoder::append;

/// Whether a run goes on with a character that is next.
fn goes_on<C: Class, I: Input>(input: &I, class: &C, c: char, colon: Colon) -> bool
    ensures { result ≡ goes (C.member class.now) colon c ((I.shown input.now).at 1) }
{
    class.has(c)
        && match colon {
            Colon::Free => true,
            Colon::Stops => c != ':',
            Colon::Leads => c != ':' || class.has(input.peek_nth(1)),
        }
}

/// The next character, if the run goes on with it.
fn next_of_run<C: Class, I: Input>(input: &mut I, class: &C, colon: Colon) -> Option<char>
    requires { Sees colon (I.view input.old).window }
    ensures { PeeksRun (goes (C.member class.now) colon) result (I.view input.old)
        (I.view input.new) }
{
    match input.next_ch() {
        Some(c) if goes_on(input, class, c, colon) => Some(c),
        _ => None,
    }
}

/// Takes a run, so many characters of it at most.
pub(crate) fn skip_run<C: Class, I: Input>(
    input: &mut I,
    class: &C,
    colon: Colon,
    most: usize,
) -> usize
    requires { Sees colon (I.view input.old).window }
    ensures { let v = I.view input.old in
        SkipsRun (nat_lt result most) (exactly 0)
        (take most (run_by (goes (C.member class.now) colon) v.ahead)) result v
        (I.view input.new) }
{
    for taken in 0..most {
        if next_of_run(input, class, colon).is_none() {
            return taken;
        }
        input.skip();
    }
    most
}

/// Takes a run, so many characters of it at most, and appends what fits to a room.
pub(crate) fn fetch_run<C: Class, I: Input>(
    input: &mut I,
    class: &C,
    colon: Colon,
    most: usize,
    room: &mut [u8],
    filled: usize,
) -> Fetched
    requires { (Sees colon (I.view input.old).window) × (filled ≤ length room.old) }
    ensures skips { let v = I.view input.old in
        let run = take most (run_by (goes (C.member class.now) colon) v.ahead) in
        SkipsRun (nat_lt result.count most) (exactly 0) (part room.old filled run) result.count v
        (I.view input.new) }
    ensures writes { Writes (take most (run_by (goes (C.member class.now) colon) (I.view input.old).ahead))
        room.old filled result room.new }
{
    let mut end = filled;
    for count in 0..most {
        let Some(c) = next_of_run(input, class, colon) else {
            return Fetched::new(count, end, None);
        };
        match append(c, room, end) {
            Ok(next) => end = next,
            Err(refusal) => return Fetched::new(count, end, Some(refusal)),
        }
        input.skip();
    }
    Fetched::new(most, end, None)
}

//! Runs of one class: each scan is written once, for every class and every input.

ghost use Rattle.std.specs.Prelude.{◌≡◌, ℕ, Bool, true, false};
ghost use Rattle.input.specs.View.{exactly};
ghost use Rattle.char_traits.specs.Chars.{not_breakz};
ghost use Rattle.runs.specs.Runs.{run_of};
ghost use Rattle.runs.specs.Rooms.{beyond};
ghost use Rattle.runs.specs.Scans.{scan_look, SkipsRun, Fetches};

use crate::steps::{fetch_run, skip_run};
use crate::{Colon, Fetched};
use char_traits::class::{Class, NotBreakz};
use error::Refusal;
use input::Input;

/// No scan is longer than this: an input has fewer characters ahead.
pub(crate) const WHOLE: usize = usize::MAX;

/// Takes the longest run of a class, and counts it.
pub fn skip_while<C: Class, I: Input>(input: &mut I, class: &C) -> usize
    ensures { let v = I.view input.old in
        SkipsRun true (scan_look v.manner) (run_of (C.member class.now) v.ahead) result v
        (I.view input.new) }
{
    input.lookahead(1);
    skip_run(input, class, Colon::Free, WHOLE)
}

/// Takes the longest run of a class, and appends it to a room.
#[tactic(auto, using(crate::proofs::Asking::fetch_beyond, crate::proofs::Asking::within))]
pub fn fetch_while<C: Class, I: Input>(
    input: &mut I,
    class: &C,
    room: &mut [u8],
    filled: usize,
) -> Fetched
    ensures fetches { let v = I.view input.old in
        Fetches true (scan_look v.manner) (run_of (C.member class.now) v.ahead) room.old
        filled result room.new v (I.view input.new) }
    ensures untouched { beyond room.old filled ≡ true → input.new ≡ input.old }
{
    if filled > room.len() {
        return Fetched::new(0, filled, Some(Refusal::BeyondRoom));
    }
    input.lookahead(1);
    fetch_run(input, class, Colon::Free, WHOLE, room, filled)
}

/// Takes all up to a breakz or the end, appends it to a room, and asks for no lookahead.
#[tactic(auto, using(crate::proofs::Asking::fetch_beyond, crate::proofs::Asking::within))]
pub fn fetch_line<I: Input>(input: &mut I, room: &mut [u8], filled: usize) -> Fetched
    ensures fetches { let v = I.view input.old in
        Fetches true (exactly 0) (run_of not_breakz v.ahead) room.old filled result room.new v
        (I.view input.new) }
    ensures untouched { beyond room.old filled ≡ true → input.new ≡ input.old }
{
    if filled > room.len() {
        return Fetched::new(0, filled, Some(Refusal::BeyondRoom));
    }
    fetch_run(input, &NotBreakz, Colon::Free, WHOLE, room, filled)
}

//! Plain runs: whole, or a front of one at a time.

ghost use Rattle.std.specs.Prelude.{◌≡◌, ℕ, ◌≤◌, Bool, true, false, length, take, nat_lt};
ghost use Rattle.input.specs.View.{exactly};
ghost use Rattle.runs.specs.Runs.{plain_run, chunk_run, colon_at};
ghost use Rattle.runs.specs.Rooms.{beyond, part};
ghost use Rattle.runs.specs.Scans.{Sees, SkipsRun, Writes, Fetches, SkipsChunk, FetchesChunk, StepsChunk, StepsFetch};

use crate::calls::WHOLE;
use crate::steps::{fetch_run, skip_run};
use crate::{Colon, Fetched};
use char_traits::class::{PlainSafe, PlainSafeInFlow};
use error::Refusal;
use input::Input;

fn skip_safe<I: Input>(input: &mut I, colon: Colon, most: usize, in_flow: bool) -> usize
    requires { Sees colon (I.view input.old).window }
    ensures { let v = I.view input.old in
        SkipsRun (nat_lt result most) (exactly 0) (take most (chunk_run colon in_flow v.ahead))
        result v (I.view input.new) }
{
    if in_flow {
        skip_run(input, &PlainSafeInFlow, colon, most)
    } else {
        skip_run(input, &PlainSafe, colon, most)
    }
}

fn fetch_safe<I: Input>(
    input: &mut I,
    colon: Colon,
    most: usize,
    room: &mut [u8],
    filled: usize,
    in_flow: bool,
) -> Fetched
    requires { (Sees colon (I.view input.old).window) × (filled ≤ length room.old) }
    ensures skips { let v = I.view input.old in
        SkipsRun (nat_lt result.count most) (exactly 0)
        (part room.old filled (take most (chunk_run colon in_flow v.ahead))) result.count v
        (I.view input.new) }
    ensures writes { Writes (take most (chunk_run colon in_flow (I.view input.old).ahead))
        room.old filled result room.new }
{
    if in_flow {
        fetch_run(input, &PlainSafeInFlow, colon, most, room, filled)
    } else {
        fetch_run(input, &PlainSafe, colon, most, room, filled)
    }
}

/// What can be told of a `:` with the window that is there.
fn colon_in<I: Input>(input: &I) -> Colon
    ensures { result ≡ colon_at (I.view input.now).window }
{
    if input.buflen() < 2 {
        Colon::Stops
    } else {
        Colon::Leads
    }
}

/// Takes a plain run, character by character, and counts it.
pub fn skip_plain<I: Input>(input: &mut I, in_flow: bool) -> usize
    ensures { let v = I.view input.old in
        SkipsRun true (exactly 2) (plain_run in_flow v.ahead) result v (I.view input.new) }
{
    input.lookahead(2);
    skip_safe(input, Colon::Leads, WHOLE, in_flow)
}

/// Takes a plain run, character by character, and appends it to a room.
#[tactic(auto, using(crate::proofs::Asking::fetch_beyond, crate::proofs::Asking::within))]
pub fn fetch_plain<I: Input>(
    input: &mut I,
    room: &mut [u8],
    filled: usize,
    in_flow: bool,
) -> Fetched
    ensures fetches { let v = I.view input.old in
        Fetches true (exactly 2) (plain_run in_flow v.ahead) room.old filled result room.new v
        (I.view input.new) }
    ensures untouched { beyond room.old filled ≡ true → input.new ≡ input.old }
{
    if filled > room.len() {
        return Fetched::new(0, filled, Some(Refusal::BeyondRoom));
    }
    input.lookahead(2);
    fetch_safe(input, Colon::Leads, WHOLE, room, filled, in_flow)
}

/// Takes at most so many characters of a plain run. The flag tells a stop before the count.
#[tactic(auto, using(crate::proofs::Chunks::skip_of_none, crate::proofs::Chunks::skip_steps_none))]
pub fn skip_chunk<I: Input>(input: &mut I, count: usize, in_flow: bool) -> (bool, usize)
    ensures chunk { SkipsChunk in_flow count result (I.view input.old) (I.view input.new) }
    ensures steps { StepsChunk in_flow count result (I.view input.old) (I.view input.new) }
{
    if count == 0 {
        return (false, 0);
    }
    input.lookahead(1);
    let colon = colon_in(input);
    let taken = skip_safe(input, colon, count, in_flow);
    (taken < count, taken)
}

/// Takes the run of a plain chunk, and appends it to a room.
#[tactic(auto, using(crate::proofs::Chunks::chunk_beyond, crate::proofs::Chunks::steps_beyond, crate::proofs::Chunks::fetch_of_none))]
pub fn fetch_chunk<I: Input>(
    input: &mut I,
    room: &mut [u8],
    filled: usize,
    count: usize,
    in_flow: bool,
) -> (bool, Fetched)
    ensures chunk { FetchesChunk in_flow count room.old filled result room.new (I.view input.old)
        (I.view input.new) }
    ensures steps { StepsFetch in_flow count room.old filled result room.new (I.view input.old)
        (I.view input.new) }
    ensures untouched { beyond room.old filled ≡ true → input.new ≡ input.old }
{
    if filled > room.len() {
        let refused = Fetched::new(0, filled, Some(Refusal::BeyondRoom));
        return (count > 0, refused);
    }
    if count == 0 {
        return (false, Fetched::new(0, filled, None));
    }
    input.lookahead(1);
    let colon = colon_in(input);
    let taken = fetch_safe(input, colon, count, room, filled, in_flow);
    (taken.count < count, taken)
}

//! What a run is, and what fits.

ghost use Rattle.std.specs.Prelude.{◌≡◌, ℕ, Bool, List, None};
ghost use mathlib.Core.List.{IsPrefix};
ghost use Rattle.input.specs.View.{View, Look};
ghost use Rattle.runs.specs.Laws.{LongestFront, GoesOn, OfClass, Plain, Fits, FetchesAll};
ghost use Rattle.runs.specs.Rooms.{front_that_fits, part};
ghost use Rattle.runs.specs.Runs.{run_by, run_of, plain_run};
ghost use Rattle.runs.specs.Scans.{Fetches};
ghost use Rattle.runs.specs.declared.Fetched.{Fetched};

use input::Input;

/// Runs, and what fits of them, are the longest fronts of their kind.
pub fn runs_are_longest()
    ensures run { (go : ℕ → ℕ → Bool) (ahead : List ℕ) →
        LongestFront (GoesOn go ahead) ahead (run_by go ahead) }
    ensures class { (class : ℕ → Bool) (ahead : List ℕ) →
        LongestFront (OfClass class ahead) ahead (run_of class ahead) }
    ensures plain { (in_flow : Bool) (ahead : List ℕ) →
        LongestFront (Plain in_flow ahead) ahead (plain_run in_flow ahead) }
    ensures fits { (free : ℕ) (chars : List ℕ) →
        LongestFront (Fits free chars) chars (front_that_fits free chars) }
{}

/// What a fetch takes is a front of its run, and all of it where it is not refused.
pub fn fetches_are_fronts<I: Input>()
    ensures part { (room : List ℕ) (filled : ℕ) (run : List ℕ) →
        IsPrefix (part room filled run) run }
    ensures whole { (looks : Bool) (look : Look) (run room : List ℕ) (filled : ℕ) (r : Fetched)
        (left : List ℕ) (v w : View I.Held) → Fetches looks look run room filled r left v w →
        r.refusal ≡ None → FetchesAll run room filled r left v w }
{}

//! The worked examples of the rules, proved together from the definitions that the calls and the sources promise.
#![tactic(auto)]

ghost use Rattle.worked_examples.specs.Worked.{Worked};

use input::Input;

/// Each example holds of this kind of input, whichever it is; the chunk's of every prompt one with
/// that window, and the pulled cable's of every new prompt one. Both are said of new rings too: the
/// chunk's over any clean source after one lookahead, the cable's over codes.
pub fn worked_examples<I: Input>()
    ensures { Worked I.Held }
{}

//! A failing source of any kind behind a stash that is always full, as an input.

ghost use Rattle.std.specs.Prelude.{◌≡◌, ◌<◌, true, [], is_some};
ghost use Rattle.input.specs.View.{IsFresh};
ghost use Rattle.input.specs.Calls.{TakesNext};

use crate::drawn::Drawn;
use crate::hold::Hold;
use char_traits::is_breakz;
use error::{Ending, Fault, Refusal};
use input::made::Made;
use input::shows::Shows;
use input::{Input, Marker};
use runs::Scan;
use source::FallibleSource;

/// The window, which is all that is held. An input has to offer sixteen: a scanner looks four
/// characters ahead, eight in an escape, and two more than the indent in the lines of a scalar.
const PLACES: usize = 16;

/// A source behind sixteen characters that were drawn from it, or fewer once its ending is met. It
/// may so meet its ending before that is due.
#[derive(Drop)]
pub struct Stash<S> {
    drawn: Drawn<S>,
    told: bool,
    ghost full: { drawn.hold.len < 16 → is_some drawn.met ≡ true },
}

impl<S: FallibleSource> Stash<S> {
    ghost use Rattle.receiver.specs.Stash.{stash_making, stash_view};

    /// A stash over a source: all of the source's characters are ahead, and its ending is the
    /// source's.
    pub fn new(source: S) -> Stash<S>
        ensures { IsFresh (stash_making S.ahead S.ending S.given source)
            (stash_view S.ahead S.ending result) }
    {
        let mut drawn = Drawn {
            source,
            hold: Hold::new(),
            met: None,
        };
        drawn.fill();
        Stash { drawn, told: false }
    }

    /// Takes the first character, if one is ahead.
    fn take(&mut self) -> Option<char>
        ensures { let view = stash_view S.ahead S.ending in
            TakesNext result (view self.old) (view self.new) }
    {
        let taken = self.drawn.hold.pop();
        self.drawn.fill();
        taken
    }
}

impl<S: FallibleSource> Input for Stash<S> {
    ghost use Rattle.receiver.specs.Stash.{stash_view, stash_shown};
    ghost use Rattle.receiver.specs.StashLaws.{stash_sound, stash_faithful, stash_wide};

    ghost Held = { S };

    ghost view = { stash_view S.ahead S.ending };

    ghost shown = { stash_shown };

    ghost sound = { stash_sound S.ahead S.ending S.characters S.short };

    ghost faithful = { stash_faithful S.ahead S.ending };

    ghost wide = { λ _. stash_wide };

    fn lookahead(&mut self, _count: usize) {}

    fn buflen(&self) -> usize {
        PLACES
    }

    fn bufmaxlen(&self) -> usize {
        PLACES
    }

    fn raw_read_ch(&mut self) -> char {
        self.take().unwrap_or('\0')
    }

    fn raw_read_non_breakz_ch(&mut self) -> Option<char> {
        match self.drawn.hold.first() {
            Some(c) if !is_breakz(c) => self.take(),
            _ => None,
        }
    }

    fn skip(&mut self) {
        let _ = self.take();
    }

    #[tactic(auto, using(input::proofs::Skipping::skips_none))]
    fn skip_n(&mut self, count: usize) {
        let mut left = count;
        while left > 0 {
            if self.take().is_none() {
                return;
            }
            left -= 1;
        }
    }

    fn next_ch(&mut self) -> Option<char> {
        self.drawn.hold.first()
    }

    fn peek_nth(&self, n: usize) -> char {
        self.drawn.hold.at(n)
    }

    fn next_is_z(&self) -> bool {
        self.drawn.hold.len() == 0
    }

    fn next_are(&self, wanted: &[char]) -> Result<bool, Refusal> {
        Ok(self.drawn.hold.begins_with(wanted))
    }

    fn next_marker(&self) -> Result<Option<Marker>, Refusal> {
        Ok(self.drawn.hold.marker())
    }

    fn take_source_error(&mut self) -> Option<Fault> {
        if self.told {
            return None;
        }
        let fault = self.met_fault();
        self.told = fault.is_some();
        fault
    }

    fn met_ending(&self) -> Option<Ending> {
        self.drawn.met
    }
}

/// The scanning calls go character by character.
impl<S: FallibleSource> Scan for Stash<S> {}

impl<S: FallibleSource> Made<S> for Stash<S> {
    ghost use Rattle.receiver.specs.Stash.{stash_making};

    ghost making = { stash_making S.ahead S.ending S.given };

    ghost Answers = { λ _ answer. answer ≡ (0, []) };

    ghost placed = { S.placed };

    fn make(of: S) -> Result<Stash<S>, Refusal> {
        Ok(Stash::new(of))
    }
}

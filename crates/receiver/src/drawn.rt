//! Characters drawn ahead of need.

use crate::hold::Hold;
use error::Ending;
use source::FallibleSource;

/// A source, what was drawn from it, and its ending once it was met. It may be half full, as a stash
/// may not: so it is what the stash fills.
#[derive(Drop)]
pub(crate) struct Drawn<S> {
    pub(crate) source: S,
    pub(crate) hold: Hold,
    pub(crate) met: Option<Ending>,
}

impl<S: FallibleSource> Drawn<S> {
    ghost use Rattle.receiver.specs.Drawn.{FillsUp};

    /// Draws until the hold is full or the ending is met.
    pub(crate) fn fill(&mut self)
        ensures { FillsUp S.ahead S.ending self.old self.new }
    {
        while self.met.is_none() && self.hold.len() < 16 {
            match self.source.step() {
                Ok(Some(c)) => self.hold.push(c),
                Ok(None) => self.met = Some(Ok(())),
                Err(fault) => self.met = Some(Err(fault)),
            }
        }
    }
}

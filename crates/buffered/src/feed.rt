//! Characters drawn from a source.

ghost use Rattle.std.specs.Prelude.{◌≡◌, ◌≤◌, false, []};
ghost use Rattle.buffered.specs.Ring.{queue};

use crate::ring::Ring;
use source::Source;

/// A source, what is held of it, and whether its end was met.
#[derive(Drop)]
pub(crate) struct Feed<S> {
    source: S,
    ring: Ring,
    met: bool,
}

impl<S> Feed<S> {
    /// Over a source of which nothing was drawn.
    pub(crate) fn new(source: S) -> Feed<S>
        ensures source { result.source ≡ source }
        ensures none { queue result.ring ≡ [] }
        ensures unmet { result.met ≡ false }
    {
        Feed {
            source,
            ring: Ring::new(),
            met: false,
        }
    }

    #[inline(always)]
    pub(crate) fn source(&self) -> &S
        ensures { result.now ≡ self.now.source }
    {
        &self.source
    }

    pub(crate) fn into_source(self) -> S
        ensures { result ≡ self.source }
    {
        self.source
    }

    #[inline(always)]
    pub(crate) fn held(&self) -> &Ring
        ensures { result.now ≡ self.now.ring }
    {
        &self.ring
    }

    #[inline(always)]
    pub(crate) fn has_met_end(&self) -> bool
        ensures { result ≡ self.now.met }
    {
        self.met
    }
}

impl<S: Source> Feed<S> {
    ghost use Rattle.buffered.specs.Feed.{Fills, Draws, Feeds};

    /// Draws until so many are held or the source has ended.
    #[inline(always)]
    pub(crate) fn fill(&mut self, upto: usize)
        requires { upto ≤ 16 }
        ensures fills { Fills S.ahead upto self.old self.new }
        ensures feeds { Feeds S.kept S.ended self.old self.new }
    {
        while self.ring.len() < upto && !self.met {
            match self.source.step() {
                Some(c) => self.ring.push(c),
                None => self.met = true,
            }
        }
    }

    /// Takes the first character: one that is held, or else the next of the source, which then does not go through the ring.
    #[inline(always)]
    pub(crate) fn take(&mut self) -> Option<char>
        ensures draws { Draws S.ahead result self.old self.new }
        ensures feeds { Feeds S.kept S.ended self.old self.new }
    {
        if let Some(c) = self.ring.pop() {
            return Some(c);
        }
        if self.met {
            return None;
        }
        match self.source.step() {
            Some(c) => Some(c),
            None => {
                self.met = true;
                None
            }
        }
    }
}

//! What of a run fits a room: lent bytes of which the first so many are filled.

ghost use Rattle.std.specs.Prelude.{◌≡◌, ℕ, ◌+◌, ◌-◌, ◌≤◌, List, length, take, drop};
ghost use Rattle.utf8.specs.Room.{overlay};
ghost use Rattle.runs.specs.Runs.{goes, run_by};
ghost use Rattle.runs.specs.Rooms.{front_that_fits};
ghost use Rattle.text_bytes.specs.Cursors.{ahead_from, IsLater};
ghost use Rattle.text_bytes.specs.Ends.{Ends, FetchesAt};

use super::Cursor;
use char_traits::class::Class;
use error::Refusal;
use runs::{Colon, Fetched};

impl<'a> Cursor<'a> {
    /// The last place up to a limit that is between two characters, and how many characters lie
    /// before it.
    fn fitting_end(&self, limit: usize) -> (Cursor<'a>, usize)
        requires { self.now.place ≤ limit }
        ensures ends { let fits = front_that_fits (limit - self.now.place) (ahead_from self.now) in
            Ends self.now fits result.0 result.1 }
        ensures low { result.0.place ≤ limit }
    {
        let mut end = *self;
        let mut count = 0;
        while let Some((_, next)) = end.first() {
            if next.place > limit {
                break;
            }
            end = next;
            count += 1;
        }
        (end, count)
    }

    /// Where a run is cut so that its bytes fit, and how many characters it has then.
    fn cut_to_fit(&self, end: Cursor<'a>, count: usize, free: usize) -> (Cursor<'a>, usize)
        requires { IsLater self.now end }
        ensures ends { (run : List ℕ) → Ends self.now run end.entry count
            → Ends self.now (front_that_fits free run) result.0 result.1 }
        ensures later { IsLater self.now result.0 }
        ensures fits { result.0.place - self.now.place ≤ free }
    {
        if end.place - self.place <= free {
            (end, count)
        } else {
            self.fitting_end(self.place + free)
        }
    }

    /// Copies the bytes up to a later place into a room.
    fn copy_part(&self, end: Cursor<'a>, room: &mut [u8], filled: usize)
        requires { IsLater self.now end
            × (filled + (end.place - self.now.place) ≤ length room.old) }
        ensures { let width = end.entry.place - self.now.place in
            room.new ≡ overlay room.old filled
            (take width (drop self.now.place self.now.text.now)) }
    {
        let part = &self.text[self.place..end.place];
        // Many runs are empty, and a call that copies nothing costs as much as one that does.
        if !part.is_empty() {
            room[filled..filled + part.len()].copy_from_slice(part);
        }
    }

    /// Appends as much of a run as fits.
    fn fetch_part(
        &self,
        end: Cursor<'a>,
        count: usize,
        room: &mut [u8],
        filled: usize,
    ) -> (Cursor<'a>, Fetched)
        requires { IsLater self.now end × (filled ≤ length room.old) }
        ensures { (run : List ℕ) → Ends self.now run end.entry count
            → FetchesAt self.now run room.old filled result.0 result.1 room.new }
    {
        let (cut, taken) = self.cut_to_fit(end, count, room.len() - filled);
        self.copy_part(cut, room, filled);
        let refusal = if taken < count {
            Some(Refusal::RoomFull)
        } else {
            None
        };
        (
            cut,
            Fetched {
                count: taken,
                filled: filled + (cut.place - self.place),
                refusal,
            },
        )
    }

    /// Appends as much of the run from the place on as fits, and answers the place after it.
    #[inline(always)]
    pub fn fetch_run<C: Class>(
        &self,
        class: &C,
        colon: Colon,
        room: &mut [u8],
        filled: usize,
    ) -> (Cursor<'a>, Fetched)
        ensures { let go = goes (C.member class.now) colon in
            FetchesAt self.now (run_by go (ahead_from self.now)) room.old filled result.0 result.1
            room.new }
    {
        if filled > room.len() {
            let beyond = Fetched {
                count: 0,
                filled,
                refusal: Some(Refusal::BeyondRoom),
            };
            return (*self, beyond);
        }
        let (end, count) = self.run_end(class, colon);
        self.fetch_part(end, count, room, filled)
    }
}

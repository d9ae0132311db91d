//! The scanning calls over the text's bytes. Each finds the end of its run first, and a fetch
//! copies what of it fits at once.

ghost use Rattle.std.specs.Prelude.{◌≡◌, true, false, length, if◌then◌else◌};
ghost use Rattle.input.specs.View.{exactly};
ghost use Rattle.char_traits.specs.Chars.{blank, alpha, yaml_non_space, not_breakz, printable_not_breakz};
ghost use Rattle.runs.specs.Runs.{goes, run_by, run_of, plain_run, at_hash};
ghost use Rattle.runs.specs.Rooms.{beyond};
ghost use Rattle.runs.specs.Scans.{scan_look, SkipsRun, Fetches, SkipsChunk, FetchesChunk, SkipsBlanks, SkipsToEol};
ghost use Rattle.str_input.specs.Text.{ahead_of, text_view, MovesOn, MovesWide};
ghost use Rattle.text_bytes.specs.Ends.{AppendsRun};

use super::StrInput;
use char_traits::class::{
    Alpha, Blank, Class, NotBreakz, PlainSafe, PlainSafeInFlow, PrintableNotBreakz, YamlNonSpace,
};
use error::Refusal;
use input::Input;
use runs::{Colon, Fetched, Scan, SkipTabs, WhitespaceResult};

impl StrInput<'_> {
    /// Takes the run of a class, and counts it.
    fn skip_run<C: Class>(&mut self, class: &C, colon: Colon) -> usize
        ensures number { let go = goes (C.member class.now) colon in
            result ≡ length (run_by go (ahead_of self.old)) }
        ensures moves { MovesOn result self.old self.new }
    {
        let (end, count) = self.at.run_end(class, colon);
        self.move_to(end);
        count
    }

    /// Takes and appends as much of the run of a class as fits.
    #[inline(always)]
    fn fetch_run<C: Class>(
        &mut self,
        class: &C,
        colon: Colon,
        room: &mut [u8],
        filled: usize,
    ) -> Fetched
        ensures appends { let go = goes (C.member class.now) colon in
            AppendsRun (run_by go (ahead_of self.old)) room.old filled result room.new }
        ensures moves { MovesOn result.count self.old self.new }
        ensures unmoved { beyond room.old filled ≡ true → self.new ≡ self.old }
    {
        let (end, fetched) = self.at.fetch_run(class, colon, room, filled);
        // A fetch that takes nothing leaves the reader as it was.
        if fetched.count > 0 {
            self.move_to(end);
        }
        fetched
    }

    fn skip_plain(&mut self, in_flow: bool) -> usize
        ensures number { result ≡ length (plain_run in_flow (ahead_of self.old)) }
        ensures moves { MovesOn result self.old self.new }
    {
        if in_flow {
            self.skip_run(&PlainSafeInFlow, Colon::Leads)
        } else {
            self.skip_run(&PlainSafe, Colon::Leads)
        }
    }

    #[inline(always)]
    fn fetch_plain(&mut self, in_flow: bool, room: &mut [u8], filled: usize) -> Fetched
        ensures appends { AppendsRun (plain_run in_flow (ahead_of self.old)) room.old filled result
            room.new }
        ensures moves { MovesOn result.count self.old self.new }
        ensures unmoved { beyond room.old filled ≡ true → self.new ≡ self.old }
    {
        if in_flow {
            self.fetch_run(&PlainSafeInFlow, Colon::Leads, room, filled)
        } else {
            self.fetch_run(&PlainSafe, Colon::Leads, room, filled)
        }
    }

    fn is_at_hash(&self) -> bool
        ensures { result ≡ at_hash (ahead_of self.now) }
    {
        self.at.is_at_hash()
    }
}

impl Scan for StrInput<'_> {
    fn skip_while_blank(&mut self) -> usize
        ensures skips { let v = text_view self.old in
            SkipsRun true (scan_look v.manner) (run_of blank v.ahead) result v
            (text_view self.new) }
        ensures moves { MovesOn result self.old self.new }
    {
        self.skip_run(&Blank, Colon::Free)
    }

    fn skip_while_non_breakz(&mut self) -> usize
        ensures skips { let v = text_view self.old in
            SkipsRun true (scan_look v.manner) (run_of printable_not_breakz v.ahead) result v
            (text_view self.new) }
        ensures moves { MovesOn result self.old self.new }
    {
        self.skip_run(&PrintableNotBreakz, Colon::Free)
    }

    fn fetch_while_is_alpha(&mut self, room: &mut [u8], filled: usize) -> Fetched
        ensures fetches { let v = text_view self.old in
            Fetches true (scan_look v.manner) (run_of alpha v.ahead) room.old filled result
            room.new v (text_view self.new) }
        ensures moves { MovesOn result.count self.old self.new }
        ensures unmoved { beyond room.old filled ≡ true → self.new ≡ self.old }
    {
        self.fetch_run(&Alpha, Colon::Free, room, filled)
    }

    fn fetch_while_is_yaml_non_space(&mut self, room: &mut [u8], filled: usize) -> Fetched
        ensures fetches { let v = text_view self.old in
            Fetches true (scan_look v.manner) (run_of yaml_non_space v.ahead) room.old filled
            result room.new v (text_view self.new) }
        ensures moves { MovesOn result.count self.old self.new }
        ensures unmoved { beyond room.old filled ≡ true → self.new ≡ self.old }
    {
        self.fetch_run(&YamlNonSpace, Colon::Free, room, filled)
    }

    fn fetch_block_scalar_line(&mut self, room: &mut [u8], filled: usize) -> Fetched
        ensures fetches { let v = text_view self.old in
            Fetches true (exactly 0) (run_of not_breakz v.ahead) room.old filled result room.new v
            (text_view self.new) }
        ensures moves { MovesOn result.count self.old self.new }
        ensures unmoved { beyond room.old filled ≡ true → self.new ≡ self.old }
    {
        self.fetch_run(&NotBreakz, Colon::Free, room, filled)
    }

    #[inline(always)]
    fn skip_ws_to_eol(&mut self, skip_tabs: SkipTabs) -> (usize, Result<WhitespaceResult, Refusal>)
        ensures skips { SkipsToEol skip_tabs result (text_view self.old) (text_view self.new) }
        ensures moves { MovesOn result.0 self.old self.new }
    {
        let (blanks, seen) = self.skip_ws_to_eol_blanks(skip_tabs);
        if !self.is_at_hash() {
            return (blanks, Ok(seen));
        }
        if blanks == 0 {
            return (0, Err(Refusal::CommentNotSeparated));
        }
        let comment = self.skip_run(&NotBreakz, Colon::Free);
        (blanks + comment, Ok(seen))
    }

    #[inline(always)]
    fn skip_ws_to_eol_blanks(&mut self, skip_tabs: SkipTabs) -> (usize, WhitespaceResult)
        ensures skips { SkipsBlanks skip_tabs result (text_view self.old) (text_view self.new) }
        ensures moves { MovesOn result.0 self.old self.new }
    {
        let start = self.at.place();
        let (end, seen) = self.at.blanks_end(skip_tabs);
        self.move_to(end);
        (end.place() - start, seen)
    }

    /// The whole plain run, whatever the count.
    #[tactic(auto, using(crate::proofs::Scanning::fetches_chunk))]
    #[inline(always)]
    fn fetch_plain_scalar_chunk(
        &mut self,
        room: &mut [u8],
        filled: usize,
        count: usize,
        in_flow: bool,
    ) -> (bool, Fetched)
        ensures fetches { FetchesChunk in_flow count room.old filled result room.new
            (text_view self.old) (text_view self.new) }
        ensures all { AppendsRun (plain_run in_flow (ahead_of self.old)) room.old filled result.1
            room.new }
        ensures stopped { result.0 ≡ true }
        ensures moves { MovesOn result.1.count self.old self.new }
        ensures unmoved { beyond room.old filled ≡ true → self.new ≡ self.old }
    {
        (true, self.fetch_plain(in_flow, room, filled))
    }

    /// The whole plain run, whatever the count.
    fn skip_plain_scalar_chunk(&mut self, count: usize, in_flow: bool) -> (bool, usize)
        ensures skips { SkipsChunk in_flow count result (text_view self.old) (text_view self.new) }
        ensures all { result.1 ≡ length (plain_run in_flow (ahead_of self.old)) }
        ensures stopped { result.0 ≡ true }
        ensures moves { MovesOn result.1 self.old self.new }
    {
        (true, self.skip_plain(in_flow))
    }

    fn fetch_plain_run(&mut self, room: &mut [u8], filled: usize, in_flow: bool) -> Fetched
        ensures fetches { let v = text_view self.old in
            Fetches true (exactly 2) (plain_run in_flow v.ahead) room.old filled result room.new v
            (text_view self.new) }
        ensures moves { let look = if beyond room.old filled then 0 else 2 in
            MovesWide look result.count self.old self.new }
        ensures unmoved { beyond room.old filled ≡ true → self.new ≡ self.old }
    {
        if filled <= room.len() {
            self.lookahead(2);
        }
        self.fetch_plain(in_flow, room, filled)
    }

    fn skip_plain_run(&mut self, in_flow: bool) -> usize
        ensures skips { let v = text_view self.old in
            SkipsRun true (exactly 2) (plain_run in_flow v.ahead) result v (text_view self.new) }
        ensures moves { MovesWide 2 result self.old self.new }
    {
        self.lookahead(2);
        self.skip_plain(in_flow)
    }
}

//! The scanning calls as an interface over inputs.

ghost use Rattle.std.specs.Prelude.{◌≡◌, Bool, true, false, ℕ};
ghost use Rattle.std.specs.Bool.{OnTrue};
ghost use Rattle.input.specs.View.{exactly};
ghost use Rattle.char_traits.specs.Chars.{blank, alpha, yaml_non_space, not_breakz, printable_not_breakz};
ghost use Rattle.runs.specs.Runs.{run_of, plain_run};
ghost use Rattle.runs.specs.Scans.{scan_look, SkipsRun, Fetches, SkipsChunk, FetchesChunk, StepsChunk, StepsFetch, SkipsBlanks, SkipsToEol};

use crate::blanks::{skip_blanks, skip_to_eol};
use crate::calls::{fetch_line, fetch_while, skip_while};
use crate::plain::{fetch_chunk, fetch_plain, skip_chunk, skip_plain};
use crate::{Fetched, SkipTabs, WhitespaceResult};
use char_traits::class::{Alpha, Blank, PrintableNotBreakz, YamlNonSpace};
use error::Refusal;
use input::Input;

/// The scanning calls, in the meaning of the input below. Each takes a run of what is ahead; a
/// fetch appends it to a lent room. A kind of input keeps these bodies, which go character by
/// character, or has its own.
pub trait Scan: Input {
    /// Takes the blanks ahead, and counts them.
    fn skip_while_blank(&mut self) -> usize
    where
        Self: Sized,
        ensures { let v = Self.view self.old in
            SkipsRun true (scan_look v.manner) (run_of blank v.ahead) result v
            (Self.view self.new) }
    {
        skip_while(self, &Blank)
    }

    /// Takes the printable characters ahead up to a breakz, and counts them.
    fn skip_while_non_breakz(&mut self) -> usize
    where
        Self: Sized,
        ensures { let v = Self.view self.old in
            SkipsRun true (scan_look v.manner) (run_of printable_not_breakz v.ahead) result v
            (Self.view self.new) }
    {
        skip_while(self, &PrintableNotBreakz)
    }

    /// Takes and appends the letters, digits, `_` and `-` ahead.
    fn fetch_while_is_alpha(&mut self, room: &mut [u8], filled: usize) -> Fetched
    where
        Self: Sized,
        ensures { let v = Self.view self.old in
            Fetches true (scan_look v.manner) (run_of alpha v.ahead) room.old filled result
            room.new v (Self.view self.new) }
    {
        fetch_while(self, &Alpha, room, filled)
    }

    /// Takes and appends the printable characters ahead up to a blank, a break or a byte order
    /// mark.
    fn fetch_while_is_yaml_non_space(&mut self, room: &mut [u8], filled: usize) -> Fetched
    where
        Self: Sized,
        ensures { let v = Self.view self.old in
            Fetches true (scan_look v.manner) (run_of yaml_non_space v.ahead) room.old filled
            result room.new v (Self.view self.new) }
    {
        fetch_while(self, &YamlNonSpace, room, filled)
    }

    /// Takes and appends all up to a breakz or the end, and asks for no lookahead.
    fn fetch_block_scalar_line(&mut self, room: &mut [u8], filled: usize) -> Fetched
    where
        Self: Sized,
        ensures { let v = Self.view self.old in
            Fetches true (exactly 0) (run_of not_breakz v.ahead) room.old filled result room.new v
            (Self.view self.new) }
    {
        fetch_line(self, room, filled)
    }

    /// Takes the blanks ahead, tabs only if they are allowed, and then a comment, if one follows
    /// at least one blank.
    fn skip_ws_to_eol(&mut self, skip_tabs: SkipTabs) -> (usize, Result<WhitespaceResult, Refusal>)
    where
        Self: Sized,
        ensures { SkipsToEol skip_tabs result (Self.view self.old) (Self.view self.new) }
    {
        skip_to_eol(self, skip_tabs)
    }

    /// Skips spaces, and tabs if asked, and no comment after them.
    fn skip_ws_to_eol_blanks(&mut self, skip_tabs: SkipTabs) -> (usize, WhitespaceResult)
    where
        Self: Sized,
        ensures { SkipsBlanks skip_tabs result (Self.view self.old) (Self.view self.new) }
    {
        skip_blanks(self, skip_tabs)
    }

    /// Takes and appends a front of the plain run ahead, as much as the kind of input likes.
    fn fetch_plain_scalar_chunk(
        &mut self,
        room: &mut [u8],
        filled: usize,
        count: usize,
        in_flow: bool,
    ) -> (bool, Fetched)
    where
        Self: Sized,
        ensures chunk { let v = Self.view self.old in
            FetchesChunk in_flow count room.old filled result room.new v (Self.view self.new) }
        ensures steps { let v = Self.view self.old in
            OnTrue v.manner.steps
            (StepsFetch in_flow count room.old filled result room.new v (Self.view self.new)) }
    {
        fetch_chunk(self, room, filled, count, in_flow)
    }

    /// Takes a front of the plain run ahead, as much as the kind of input likes.
    fn skip_plain_scalar_chunk(&mut self, count: usize, in_flow: bool) -> (bool, usize)
    where
        Self: Sized,
        ensures chunk { SkipsChunk in_flow count result (Self.view self.old) (Self.view self.new) }
        ensures steps { let v = Self.view self.old in
            OnTrue v.manner.steps (StepsChunk in_flow count result v (Self.view self.new)) }
    {
        skip_chunk(self, count, in_flow)
    }

    /// Takes and appends the whole plain run ahead.
    fn fetch_plain_run(&mut self, room: &mut [u8], filled: usize, in_flow: bool) -> Fetched
    where
        Self: Sized,
        ensures { let v = Self.view self.old in
            Fetches true (exactly 2) (plain_run in_flow v.ahead) room.old filled result room.new v
            (Self.view self.new) }
    {
        fetch_plain(self, room, filled, in_flow)
    }

    /// Takes the whole plain run ahead, and counts it.
    fn skip_plain_run(&mut self, in_flow: bool) -> usize
    where
        Self: Sized,
        ensures { let v = Self.view self.old in
            SkipsRun true (exactly 2) (plain_run in_flow v.ahead) result v (Self.view self.new) }
    {
        skip_plain(self, in_flow)
    }
}

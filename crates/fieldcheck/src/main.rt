//! Reads a firing program by card and by cable, prints it line by line, and runs the technician's checklist.
#![tactic(auto)]

mod program;

use char_traits::is_breakz;
use checklist::both::{Unread, both_count_line_ends, both_find_start, both_leave_hash, read_both};
use checklist::pulls::{codes_of, pull_all_over};
use checklist::readings::read_out;
use checklist::scans::{insert_at, setpoint_end};
use error::{Refusal, is_too_long};
use listing::{drawn_line, split_line};
use program::CONE_SIX;
use source::CODE_LIMIT;
use std::alloc::{AllocError, Global};
use std::process::ExitCode;
use std::{env, fs, io};
use str_input::StrInput;

const BUILT_IN: &str = "cone six (built in)";

/// About how many pulls a long program gets: it is read anew for each, and still checked in a moment.
const MOST_PULLS: usize = 600;

/// What line C adds to the program: a marker on a line of its own, and a comment.
const MARKER: &[u8] = b"\n---";

const COMMENT: &[u8] = b"#hot";

/// Why the program ends with status 1.
#[derive(Drop)]
enum Stop {
    Io(io::Error),
    Refused(Refusal),
    /// A line of the checklist failed, and said so.
    Failed,
}

impl From<io::Error> for Stop {
    fn from(e: io::Error) -> Stop {
        Stop::Io(e)
    }
}

impl From<AllocError> for Stop {
    fn from(e: AllocError) -> Stop {
        Stop::Io(e.into())
    }
}

impl From<Refusal> for Stop {
    fn from(e: Refusal) -> Stop {
        Stop::Refused(e)
    }
}

impl From<Unread> for Stop {
    fn from(e: Unread) -> Stop {
        match e {
            Unread::Refused(refusal) => Stop::Refused(refusal),
            Unread::Memory(e) => e.into(),
        }
    }
}

/// How many lines there are, and how many differ.
#[derive(Clone, Copy)]
struct Compared {
    lines: usize,
    differ: usize,
}

/// Prints the lines by card and by cable, side by side: the line's number, its count of characters by each, and its text, once where both are the same.
fn print_lines(rt: &HostRuntime, card: &[char], cable: &[char]) -> Result<Compared, Stop> {
    let heap = rt.alloc();
    let mut compared = Compared {
        lines: 0,
        differ: 0,
    };
    let mut card = card;
    let mut cable = cable;
    while !card.is_empty() || !cable.is_empty() {
        let (by_card, card_after) = split_line(card);
        let (by_cable, cable_after) = split_line(cable);
        compared.lines = compared.lines.saturating_add(1);
        let line = compared.lines;
        let count = by_card.len();
        let count_beside = by_cable.len();
        let text = drawn_line(heap, by_card)?;
        if by_card == by_cable {
            println!(rt; "{line:>4} {count:>4} {count_beside:>5} = {text}")?;
        } else {
            compared.differ = compared.differ.saturating_add(1);
            let text_beside = drawn_line(heap, by_cable)?;
            println!(rt; "{line:>4} {count:>4}       ! {text}")?;
            println!(rt; "{line:>4}      {count_beside:>5} ! {text_beside}")?;
        }
        card = card_after;
        cable = cable_after;
    }
    Ok(compared)
}

/// Line A of the checklist: card and cable give the same.
fn check_sides(rt: &HostRuntime, compared: &Compared) -> Result<bool, Stop> {
    let lines = compared.lines;
    let differ = compared.differ;
    if differ == 0 {
        println!(rt; "A  ok    card and cable give the same {lines} lines")?;
    } else {
        println!(rt; "A  FAIL  card and cable differ in {differ} of {lines} lines")?;
    }
    Ok(differ == 0)
}

/// Line B: the cable is pulled all over the program, and each pull is told with its place.
fn check_pulls(rt: &HostRuntime, chars: &[char]) -> Result<bool, Stop> {
    let heap = rt.alloc();
    let codes = codes_of(heap, chars, CODE_LIMIT)?;
    let every = codes.len() / MOST_PULLS + 1;
    let pulls = pull_all_over(heap, codes.as_slice(), every)?;
    let made = pulls.made;
    let told = pulls.told;
    let all = told == made;
    if all {
        println!(rt;
            "B  ok    cable pulled at {made} places: each told with its place, none closed as whole"
        )?;
    } else {
        println!(rt; "B  FAIL  cable pulled at {made} places: {told} told with their place")?;
    }
    Ok(all)
}

/// How many characters a text has.
fn characters_in(heap: Global, bytes: &[u8]) -> Result<usize, Stop> {
    let mut card = StrInput::new();
    card.load(bytes)?;
    let taken = read_out(heap, &mut card)?;
    Ok(taken.chars.len())
}

fn line_ends_in(chars: &[char]) -> usize {
    chars.iter().filter(|c| is_breakz(**c)).count()
}

/// Line C: a marker as the last three bytes is found, a `#` glued to a setpoint is left, and no skip passes a line end.
fn check_scans(rt: &HostRuntime, bytes: &[u8], chars: &[char]) -> Result<bool, Stop> {
    let heap = rt.alloc();
    let marked = insert_at(heap, bytes, bytes.len(), MARKER)?;
    if is_too_long(marked.len()) {
        println!(rt; "C  --    the program is too long to add to")?;
        return Ok(true);
    }
    let start = both_find_start(marked.as_slice(), chars.len().saturating_add(1))?;
    let place = setpoint_end(bytes);
    let glued = insert_at(heap, bytes, place, COMMENT)?;
    let before = characters_in(heap, &bytes[..place.min(bytes.len())])?;
    let left = both_leave_hash(glued.as_slice(), before)?;
    let ends = line_ends_in(chars);
    let counted = both_count_line_ends(bytes)?;
    let by_card = counted.card;
    let by_cable = counted.cable;
    let stopped = by_card == ends && by_cable == ends;
    let all = start && left && stopped;
    if all {
        println!(rt;
            "C  ok    marker at the end found, glued # left, skips stop at all {ends} line ends: card and cable"
        )?;
    } else {
        println!(rt;
            "C  FAIL  marker found {start}, glued # left {left}, line ends {ends}: {by_card} by card, {by_cable} by cable"
        )?;
    }
    Ok(all)
}

fn show(rt: &HostRuntime, name: &str, bytes: &[u8]) -> Result<(), Stop> {
    let heap = rt.alloc();
    let both = read_both(heap, bytes)?;
    let by_card = both.card;
    let by_cable = both.cable;
    println!(rt; "program: {name}")?;
    println!(rt; "line card cable")?;
    let compared = print_lines(rt, by_card.chars.as_slice(), by_cable.chars.as_slice())?;
    let lines = compared.lines;
    let count = by_card.chars.len();
    let size = bytes.len();
    println!(rt; "lines {lines}, characters {count}, bytes {size}")?;
    let same = check_sides(rt, &compared)?;
    let told = check_pulls(rt, by_card.chars.as_slice())?;
    let stopped = check_scans(rt, bytes, by_card.chars.as_slice())?;
    if same && told && stopped {
        Ok(())
    } else {
        Err(Stop::Failed)
    }
}

fn show_file(rt: &HostRuntime, path: &str) -> Result<(), Stop> {
    let bytes = fs::read(rt, path)?;
    show(rt, path, bytes.as_slice())
}

/// Says in one line why a program was not shown.
fn report(rt: &HostRuntime, name: &str, res: Result<(), Stop>) -> Result<(), Stop> {
    match &res {
        Ok(()) => {}
        Err(Stop::Refused(refusal)) => eprintln!(rt; "fieldcheck: {name}: {refusal}")?,
        Err(Stop::Io(e)) => eprintln!(rt; "fieldcheck: {name}: {e}")?,
        Err(Stop::Failed) => eprintln!(rt; "fieldcheck: {name}: the checklist has failures")?,
    }
    res
}

fn run(rt: &HostRuntime) -> Result<(), Stop> {
    let mut args = env::args(rt)?;
    let _program = args.next();
    match args.next() {
        None => report(rt, BUILT_IN, show(rt, BUILT_IN, CONE_SIX.as_bytes())),
        Some(path) => report(rt, path.as_str(), show_file(rt, path.as_str())),
    }
}

fn main(rt: HostRuntime) -> ExitCode {
    match run(&rt) {
        Ok(()) => ExitCode::SUCCESS,
        Err(_) => ExitCode::FAILURE,
    }
}

//! The decoder and the encoder held against the rows of table 3-7 and against each other.

use error::Refusal;
use std::test::*;
use utf8::decoder::{IllFormed, decode};
use utf8::encoder::append;
use utf8::text::check_text;

// A row of the table: its first bytes, its second bytes, and how many bytes it has. All later bytes are 80 to BF.
struct Row {
    first: (u8, u8),
    second: (u8, u8),
    width: usize,
}

const ROWS: [Row; 8] = [
    Row {
        first: (0xC2, 0xDF),
        second: (0x80, 0xBF),
        width: 2,
    },
    Row {
        first: (0xE0, 0xE0),
        second: (0xA0, 0xBF),
        width: 3,
    },
    Row {
        first: (0xE1, 0xEC),
        second: (0x80, 0xBF),
        width: 3,
    },
    Row {
        first: (0xED, 0xED),
        second: (0x80, 0x9F),
        width: 3,
    },
    Row {
        first: (0xEE, 0xEF),
        second: (0x80, 0xBF),
        width: 3,
    },
    Row {
        first: (0xF0, 0xF0),
        second: (0x90, 0xBF),
        width: 4,
    },
    Row {
        first: (0xF1, 0xF3),
        second: (0x80, 0xBF),
        width: 4,
    },
    Row {
        first: (0xF4, 0xF4),
        second: (0x80, 0x8F),
        width: 4,
    },
];

fn within(ends: (u8, u8), byte: u8) -> bool {
    ends.0 <= byte && byte <= ends.1
}

// How many bytes the character has that begins so.
fn width_told(first: u8, second: u8) -> Option<usize> {
    if first < 0x80 {
        return Some(1);
    }
    ROWS.iter()
        .find(|row| within(row.first, first) && within(row.second, second))
        .map(|row| row.width)
}

// Whether a character of this width stands at the front, or none does.
fn has_width(bytes: &[u8], told: Option<usize>) -> bool {
    match decode(bytes, 0) {
        Ok(Some((_, width))) => told == Some(width),
        Ok(None) => false,
        Err(IllFormed) => told.is_none(),
    }
}

#[test]
fn first_and_second_bytes(rt: HostRuntime) -> Result<(), Fail> {
    for first in 0..=255u8 {
        for second in 0..=255u8 {
            let told = width_told(first, second);
            let up_to_2 = told.filter(|width| *width <= 2);
            let up_to_3 = told.filter(|width| *width <= 3);
            assert!(rt; has_width(&[first, second, 0x80, 0xBF], told));
            // a later byte one off, or one too few
            assert!(rt; has_width(&[first, second, 0x7F, 0xBF], up_to_2));
            assert!(rt; has_width(&[first, second, 0xC0, 0x80], up_to_2));
            assert!(rt; has_width(&[first, second, 0xBF, 0x7F], up_to_3));
            assert!(rt; has_width(&[first, second, 0x80, 0xC0], up_to_3));
            assert!(rt; has_width(&[first, second, 0x80], up_to_3));
            assert!(rt; has_width(&[first, second], up_to_2));
        }
        let alone = if first < 0x80 { Some(1) } else { None };
        assert!(rt; has_width(&[first], alone));
    }
    Ok(())
}

fn decodes(bytes: &[u8], c: char) -> bool {
    decode(bytes, 0) == Ok(Some((c, bytes.len())))
}

#[test]
fn both_ends_of_each_row(rt: HostRuntime) -> Result<(), Fail> {
    assert!(rt; decodes(&[0x00], '\u{0}'));
    assert!(rt; decodes(&[0x7F], '\u{7F}'));
    assert!(rt; decodes(&[0xC2, 0x80], '\u{80}'));
    assert!(rt; decodes(&[0xDF, 0xBF], '\u{7FF}'));
    assert!(rt; decodes(&[0xE0, 0xA0, 0x80], '\u{800}'));
    assert!(rt; decodes(&[0xE0, 0xBF, 0xBF], '\u{FFF}'));
    assert!(rt; decodes(&[0xE1, 0x80, 0x80], '\u{1000}'));
    assert!(rt; decodes(&[0xEC, 0xBF, 0xBF], '\u{CFFF}'));
    assert!(rt; decodes(&[0xED, 0x80, 0x80], '\u{D000}'));
    assert!(rt; decodes(&[0xED, 0x9F, 0xBF], '\u{D7FF}'));
    assert!(rt; decodes(&[0xEE, 0x80, 0x80], '\u{E000}'));
    assert!(rt; decodes(&[0xEF, 0xBF, 0xBF], '\u{FFFF}'));
    assert!(rt; decodes(&[0xF0, 0x90, 0x80, 0x80], '\u{10000}'));
    assert!(rt; decodes(&[0xF0, 0xBF, 0xBF, 0xBF], '\u{3FFFF}'));
    assert!(rt; decodes(&[0xF1, 0x80, 0x80, 0x80], '\u{40000}'));
    assert!(rt; decodes(&[0xF3, 0xBF, 0xBF, 0xBF], '\u{FFFFF}'));
    assert!(rt; decodes(&[0xF4, 0x80, 0x80, 0x80], '\u{100000}'));
    assert!(rt; decodes(&[0xF4, 0x8F, 0xBF, 0xBF], '\u{10FFFF}'));
    Ok(())
}

#[test]
fn places(rt: HostRuntime) -> Result<(), Fail> {
    let bytes = "aé€".as_bytes();
    assert_eq!(rt; decode(bytes, 0), Ok(Some(('a', 1))));
    assert_eq!(rt; decode(bytes, 1), Ok(Some(('é', 2))));
    assert_eq!(rt; decode(bytes, 2), Err(IllFormed));
    assert_eq!(rt; decode(bytes, 3), Ok(Some(('€', 3))));
    assert_eq!(rt; decode(bytes, 6), Ok(None));
    assert_eq!(rt; decode(bytes, 7), Ok(None));
    assert_eq!(rt; decode(bytes, usize::MAX), Ok(None));
    Ok(())
}

// Every character into a room and out of it again, with no byte before or after it touched.
#[test]
fn there_and_back(rt: HostRuntime) -> Result<(), Fail> {
    for c in '\0'..=char::MAX {
        let mut room = [0xEEu8; 6];
        let filled = append(c, &mut room, 1)?;
        assert_eq!(rt; decode(&room, 1), Ok(Some((c, filled.saturating_sub(1)))));
        assert!(rt; room[0] == 0xEE && room[5] == 0xEE);
        assert_eq!(rt; decode(&room, filled), Err(IllFormed));
    }
    Ok(())
}

#[test]
fn rooms(rt: HostRuntime) -> Result<(), Fail> {
    let mut room = [0xEEu8; 3];
    assert_eq!(rt; append('a', &mut room, 4), Err(Refusal::BeyondRoom));
    assert_eq!(rt;
        append('a', &mut room, usize::MAX),
        Err(Refusal::BeyondRoom)
    );
    assert_eq!(rt; append('a', &mut room, 3), Err(Refusal::RoomFull));
    assert_eq!(rt; append('é', &mut room, 2), Err(Refusal::RoomFull));
    assert_eq!(rt; append('\u{10000}', &mut room, 0), Err(Refusal::RoomFull));
    assert_eq!(rt; room, [0xEE, 0xEE, 0xEE]);
    assert_eq!(rt; append('é', &mut room, 1), Ok(3));
    assert_eq!(rt; room, [0xEE, 0xC3, 0xA9]);
    assert_eq!(rt; append('a', &mut room, 0), Ok(1));
    assert_eq!(rt; room, [0x61, 0xC3, 0xA9]);
    assert_eq!(rt; append('€', &mut room, 0), Ok(3));
    assert_eq!(rt; room, [0xE2, 0x82, 0xAC]);
    Ok(())
}

#[test]
fn texts(rt: HostRuntime) -> Result<(), Fail> {
    assert_eq!(rt; check_text(&[]), Ok(()));
    assert_eq!(rt; check_text("aé€\u{10348}\u{0}".as_bytes()), Ok(()));
    assert_eq!(rt; check_text(&[0x61, 0xC3, 0x28]), Err(Refusal::IllFormed(1)));
    assert_eq!(rt; check_text(&[0x61, 0xFF]), Err(Refusal::IllFormed(1)));
    assert_eq!(rt;
        check_text(&[0xC3, 0xA9, 0xE2, 0x82]),
        Err(Refusal::IllFormed(2))
    );
    assert_eq!(rt; check_text(&[0xED, 0xA0, 0x80]), Err(Refusal::IllFormed(0)));
    let most = vec![in rt.alloc(); b'a'; 65535]?;
    assert_eq!(rt; check_text(most.as_slice()), Ok(()));
    let more = vec![in rt.alloc(); b'a'; 65536]?;
    assert_eq!(rt; check_text(more.as_slice()), Err(Refusal::TooLong));
    let ill = vec![in rt.alloc(); 0xFFu8; 65536]?;
    assert_eq!(rt; check_text(ill.as_slice()), Err(Refusal::TooLong));
    Ok(())
}

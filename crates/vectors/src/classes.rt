//! Each class held against its runs over all characters, as the Rust tells them.

use char_traits::*;
use std::test::*;

fn in_runs(runs: &[(u32, u32)], code: u32) -> bool {
    runs.iter()
        .any(|(low, high)| (*low..=*high).contains(&code))
}

// Over all characters, and so at each border of each run.
fn has_runs<F: Fn(char) -> bool + Copy>(class: F, runs: &[(u32, u32)]) -> bool
    requires { F.IsAlwaysCallable class }
{
    for c in '\0'..=char::MAX {
        if class(c) != in_runs(runs, c as u32) {
            return false;
        }
    }
    true
}

#[test]
fn breaks_and_blanks(rt: HostRuntime) -> Result<(), Fail> {
    assert!(rt; has_runs(is_z, &[(0x00, 0x00)]));
    assert!(rt; has_runs(is_break, &[(0x0A, 0x0A), (0x0D, 0x0D)]));
    assert!(rt; has_runs(is_breakz, &[(0x00, 0x00), (0x0A, 0x0A), (0x0D, 0x0D)]));
    assert!(rt; has_runs(is_blank, &[(0x09, 0x09), (0x20, 0x20)]));
    assert!(rt;
        has_runs(
            is_blank_or_breakz,
            &[(0x00, 0x00), (0x09, 0x0A), (0x0D, 0x0D), (0x20, 0x20)]
        )
    );
    assert!(rt;
        has_runs(
            is_flow,
            &[
                (0x2C, 0x2C),
                (0x5B, 0x5B),
                (0x5D, 0x5D),
                (0x7B, 0x7B),
                (0x7D, 0x7D),
            ]
        )
    );
    Ok(())
}

#[test]
fn words(rt: HostRuntime) -> Result<(), Fail> {
    assert!(rt; has_runs(is_digit, &[(0x30, 0x39)]));
    assert!(rt;
        has_runs(
            is_alpha,
            &[
                (0x2D, 0x2D),
                (0x30, 0x39),
                (0x41, 0x5A),
                (0x5F, 0x5F),
                (0x61, 0x7A),
            ]
        )
    );
    assert!(rt; has_runs(is_hex, &[(0x30, 0x39), (0x41, 0x46), (0x61, 0x66)]));
    assert!(rt;
        has_runs(
            is_word_char,
            &[(0x2D, 0x2D), (0x30, 0x39), (0x41, 0x5A), (0x61, 0x7A)]
        )
    );
    assert!(rt;
        has_runs(
            is_uri_char,
            &[
                (0x21, 0x21),
                (0x23, 0x3B),
                (0x3D, 0x3D),
                (0x3F, 0x5B),
                (0x5D, 0x5D),
                (0x5F, 0x5F),
                (0x61, 0x7A),
                (0x7E, 0x7E),
            ]
        )
    );
    assert!(rt;
        has_runs(
            is_tag_char,
            &[
                (0x23, 0x2B),
                (0x2D, 0x3B),
                (0x3D, 0x3D),
                (0x3F, 0x5A),
                (0x5F, 0x5F),
                (0x61, 0x7A),
                (0x7E, 0x7E),
            ]
        )
    );
    Ok(())
}

#[test]
fn printables(rt: HostRuntime) -> Result<(), Fail> {
    assert!(rt; has_runs(is_bom, &[(0xFEFF, 0xFEFF)]));
    assert!(rt;
        has_runs(
            is_printable,
            &[
                (0x09, 0x0A),
                (0x0D, 0x0D),
                (0x20, 0x7E),
                (0x85, 0x85),
                (0xA0, 0xD7FF),
                (0xE000, 0xFFFD),
                (0x10000, 0x10FFFF),
            ]
        )
    );
    assert!(rt;
        has_runs(
            is_yaml_non_break,
            &[
                (0x09, 0x09),
                (0x20, 0x7E),
                (0x85, 0x85),
                (0xA0, 0xD7FF),
                (0xE000, 0xFEFE),
                (0xFF00, 0xFFFD),
                (0x10000, 0x10FFFF),
            ]
        )
    );
    assert!(rt;
        has_runs(
            is_yaml_non_space,
            &[
                (0x21, 0x7E),
                (0x85, 0x85),
                (0xA0, 0xD7FF),
                (0xE000, 0xFEFE),
                (0xFF00, 0xFFFD),
                (0x10000, 0x10FFFF),
            ]
        )
    );
    assert!(rt;
        has_runs(
            is_anchor_char,
            &[
                (0x21, 0x2B),
                (0x2D, 0x5A),
                (0x5C, 0x5C),
                (0x5E, 0x7A),
                (0x7C, 0x7C),
                (0x7E, 0x7E),
                (0x85, 0x85),
                (0xA0, 0xD7FF),
                (0xE000, 0xFEFE),
                (0xFF00, 0xFFFD),
                (0x10000, 0x10FFFF),
            ]
        )
    );
    Ok(())
}

#[test]
fn hexadecimal_digits(rt: HostRuntime) -> Result<(), Fail> {
    assert_eq!(rt; as_hex('0'), Some(0));
    assert_eq!(rt; as_hex('9'), Some(9));
    assert_eq!(rt; as_hex('a'), Some(10));
    assert_eq!(rt; as_hex('f'), Some(15));
    assert_eq!(rt; as_hex('A'), Some(10));
    assert_eq!(rt; as_hex('F'), Some(15));
    assert_eq!(rt; as_hex('g'), None);
    assert_eq!(rt; as_hex('/'), None);
    assert_eq!(rt; as_hex(':'), None);
    assert_eq!(rt; as_hex('@'), None);
    assert_eq!(rt; as_hex('G'), None);
    assert_eq!(rt; as_hex('`'), None);
    Ok(())
}

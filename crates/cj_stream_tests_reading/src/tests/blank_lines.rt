//! Blank lines, and lines that only look blank. A blank line has only spaces, tabs and CR. Any
//! other line is invalid at the first byte that no JSON text has there, or at its end.
use super::rows::{Wanted, check_place, check_run};
use cj_budget::Limits;
use cj_spans::Reason;
use cj_stream::End;
use cj_stream_testkit::{FEATURE, FIRST, STREAM, held, joined, outcome, refused};
use std::alloc::Global;
use std::process::Abort;
use std::test::Fail;

/// Runs over a header, a line that is dropped, and a feature.
fn check_dropped(rt: &impl Abort, alloc: Global, line: &[u8], bytes: u64) -> Result<(), Fail> {
    let text = joined(alloc, &[FIRST, line, b"\n", FEATURE, b"\n"])?;
    let wanted = Wanted {
        name: "dropped",
        written: STREAM,
        outcome: outcome(3, 1, held(bytes, 65, 8), End::Complete),
    };
    check_run(rt, alloc, &text, 8_192, Limits::usual(), &wanted);
    check_run(rt, alloc, &text, 1, Limits::usual(), &wanted);
    Ok(())
}

const BLANK: [&[u8]; 7] = [
    b"",
    b" ",
    b"     ",
    b"\t",
    b"\t\t\t",
    b"\r\r",
    b" \t\r\t \r",
];

#[test]
fn spaces_and_tabs_and_cr(rt: HostRuntime) -> Result<(), Fail> {
    for line in &BLANK {
        check_dropped(&rt, rt.alloc(), line, 350)?;
    }
    Ok(())
}

/// A blank line longer than one read.
const SPACES: [u8; 10_000] = [b' '; 10_000];

#[test]
fn ten_thousand_spaces(rt: HostRuntime) -> Result<(), Fail> {
    check_dropped(&rt, rt.alloc(), &SPACES, 10_140)
}

#[test]
fn a_blank_last_line_without_lf(rt: HostRuntime) -> Result<(), Fail> {
    let text = joined(rt.alloc(), &[FIRST, b" \t "])?;
    let wanted = Wanted {
        name: "a blank last line",
        written: FIRST,
        outcome: outcome(2, 0, held(143, 21, 3), End::Complete),
    };
    check_run(&rt, rt.alloc(), &text, 1, Limits::usual(), &wanted);
    Ok(())
}

/// A first line is never blank.
#[test]
fn a_first_line_of_spaces_and_tabs(rt: HostRuntime) {
    let wanted = Wanted {
        name: "a blank first line",
        written: b"",
        outcome: outcome(0, 0, held(4, 0, 0), refused(1, 4, Reason::Syntax)),
    };
    let text = b" \t \t\n{}\n";
    check_run(&rt, rt.alloc(), text, 1, Limits::usual(), &wanted);
}

/// Lines that only look blank, and which byte no JSON text has there.
const LOOK_BLANK: [(&[u8], u64); 7] = [
    (b"\x0c", 0),
    (b"\x0c\x0c\x0c", 0),
    (b" \x0c", 1),
    (b" \t\r\x0c \n", 3),
    (b"\x0b", 0),
    (b"\x00", 0),
    (b"  \xc2\xa0", 2),
];

#[test]
fn form_feeds_and_other_spaces(rt: HostRuntime) -> Result<(), Fail> {
    for (line, place) in &LOOK_BLANK {
        check_place(&rt, rt.alloc(), line, *place)?;
    }
    Ok(())
}

//! Worked examples: inputs, what is written of them, and how they end.
use super::calls::{check_at, check_bytes, check_joined, ended_by_bytes};
use super::cuts::{Row, USUAL_LINE, check};
use cj_budget::{Limits, Peaks};
use cj_spans::Reason;
use cj_stream::{End, NoReports, Outcome, laws, row_laws};
use cj_stream_testkit::{
    BEYOND, FEATURE, FIRST, HEADER, SMALL, STREAM, SlowReader, THIRD_REFUSED, attributed, copied,
    held, joined, outcome, refused,
};
use std::alloc::Global;
use std::process::Abort;
use std::test::Fail;

/// The same feature, with a space after the first brace.
const SPACED: &[u8] =
    b"{ \"type\":\"CityJSONFeature\",\"id\":\"b1\",\"CityObjects\":{\"b1\":{\"type\":\"Building\",\"geometry\":[{\"type\":\"MultiSurface\",\"lod\":\"2.2\",\"boundaries\":[[[0,1,2,3]]]}]}},\"vertices\":[[0,0,0],[1000,0,0],[1000,1000,0],[0,1000,0]]}";

/// The expected result of a run over a stream.
#[derive(Clone, Copy)]
pub struct Wanted<'a> {
    pub name: &'a str,
    pub written: &'a [u8],
    pub outcome: Outcome,
}

/// Runs over a reader that gives `step` bytes per read.
pub fn check_run(
    rt: &impl Abort,
    alloc: Global,
    text: &[u8],
    step: usize,
    limits: Limits,
    wanted: &Wanted,
) {
    let mut reader = SlowReader::new(text, step);
    let (outcome, written) = copied(alloc, &mut reader, limits);
    check_at(rt, outcome, wanted.outcome, wanted.name, step as u64);
    check_bytes(rt, &written, wanted.written, wanted.name, step as u64);
}

/// Compares a text with its parts.
fn check_text(rt: &impl Abort, alloc: Global, text: &[u8], parts: &[&[u8]]) -> Result<(), Fail> {
    let length = text.len() as u64;
    check_joined(rt, alloc, text, parts, "a text", length)
}

/// Texts with their parts.
const TEXTS: [(&[u8], &[&[u8]]); 3] = [
    (FIRST, &[HEADER, b"\n"]),
    (STREAM, &[FIRST, FEATURE, b"\n"]),
    (THIRD_REFUSED, &[STREAM, BEYOND, b"\n", FEATURE, b"\n"]),
];

#[test]
fn texts_have_their_parts(rt: HostRuntime) -> Result<(), Fail> {
    for (text, parts) in &TEXTS {
        check_text(&rt, rt.alloc(), text, parts)?;
    }
    let beyond = [&FEATURE[..144], b"4", &FEATURE[145..]];
    check_text(&rt, rt.alloc(), BEYOND, &beyond)
}

/// Texts with their lengths.
const LENGTHS: [(&[u8], u64); 3] = [(HEADER, 140), (FEATURE, 210), (SMALL, 89)];

#[test]
fn texts_have_their_lengths(rt: HostRuntime) {
    for (text, length) in &LENGTHS {
        check_at(&rt, text.len() as u64, *length, "bytes", *length);
    }
}

/// Calls the functions whose clauses are laws of lines and of sinks.
#[test]
fn laws_are_called() {
    laws::lines_are_the_lines(b"");
    laws::good_lines_are_the_longest(b"");
    laws::good_lines_are_all_or_none();
    laws::first_invalid_line_is_the_end();
    laws::good_lines_are_kept();
    laws::puts_are_counted();
    laws::puts_are_tallied();
    laws::puts_are_written::<Vec<u8>, NoReports>();
}

/// Calls the functions whose clauses are worked rows.
#[test]
fn laws_of_rows_are_called() {
    row_laws::rows_compute();
    row_laws::boxes_compute();
    row_laws::bounds_compute();
    row_laws::counts_compute();
    row_laws::ends_compute();
    row_laws::lines_compute();
    row_laws::queries_compute();
}

/// Checks a row that is read by the usual limits, up to the first invalid line.
fn check_usual(
    rt: &impl Abort,
    alloc: Global,
    text: &[&[u8]],
    written: &[&[u8]],
    outcome: Outcome,
) -> Result<(), Fail> {
    let row = Row {
        name: "by the usual limits",
        text,
        line_limit: USUAL_LINE,
        goes_on: false,
        written,
        reports: "",
        outcome,
    };
    check(rt, alloc, &row)
}

#[test]
fn no_line_at_all(rt: HostRuntime) -> Result<(), Fail> {
    let wanted = outcome(0, 0, held(0, 0, 0), refused(1, 0, Reason::NoHeader));
    check_usual(&rt, rt.alloc(), &[], &[], wanted)
}

#[test]
fn a_header_and_a_feature(rt: HostRuntime) -> Result<(), Fail> {
    let wanted = outcome(2, 1, held(350, 65, 8), End::Complete);
    check_usual(&rt, rt.alloc(), &[STREAM], &[STREAM], wanted)
}

#[test]
fn a_blank_line_and_no_last_lf(rt: HostRuntime) -> Result<(), Fail> {
    let text = [HEADER, b"\n\r\n", SPACED];
    let written = [HEADER, b"\n", SPACED];
    let wanted = outcome(3, 1, held(351, 65, 8), End::Complete);
    check_usual(&rt, rt.alloc(), &text, &written, wanted)
}

#[test]
fn a_line_one_byte_too_long(rt: HostRuntime) -> Result<(), Fail> {
    let text = [STREAM, FEATURE, b" ", b"\n"];
    let with_lf = Row {
        name: "too long",
        text: &text,
        line_limit: 210,
        goes_on: false,
        written: &[STREAM],
        reports: "",
        outcome: outcome(2, 1, held(350, 65, 8), refused(3, 210, Reason::LineTooLong)),
    };
    check(&rt, rt.alloc(), &with_lf)?;
    let without = Row {
        text: &text[..3],
        ..with_lf
    };
    check(&rt, rt.alloc(), &without)
}

#[test]
fn the_greatest_of_later_lines_counts(rt: HostRuntime) -> Result<(), Fail> {
    let text = [FIRST, SMALL, b"\n", FEATURE, b"\n"];
    let wanted = outcome(3, 2, held(350, 65, 8), End::Complete);
    check_usual(&rt, rt.alloc(), &text, &text, wanted)
}

#[test]
fn a_header_alone_without_lf(rt: HostRuntime) -> Result<(), Fail> {
    let wanted = outcome(1, 0, held(140, 21, 3), End::Complete);
    check_usual(&rt, rt.alloc(), &[HEADER], &[HEADER], wanted)
}

/// How a line after the header is invalid: where and why, and the peaks of both lines.
#[derive(Clone, Copy)]
struct Refusal<'a> {
    line: &'a [u8],
    depth: u64,
    place: u64,
    reason: Reason,
    peaks: Peaks,
}

/// Runs over a header and an invalid line.
fn check_refused(rt: &impl Abort, alloc: Global, refusal: &Refusal) -> Result<(), Fail> {
    let text = joined(alloc, &[FIRST, refusal.line, b"\n"])?;
    let ended = refused(2, refusal.place, refusal.reason);
    let wanted = Wanted {
        name: "refused",
        written: FIRST,
        outcome: outcome(1, 0, refusal.peaks, ended),
    };
    let limits = Limits::new(USUAL_LINE, refusal.depth)?;
    check_run(rt, alloc, &text, 8_192, limits, &wanted);
    check_run(rt, alloc, &text, 1, limits, &wanted);
    Ok(())
}

#[test]
fn a_comma_before_a_brace(rt: HostRuntime) -> Result<(), Fail> {
    let refusal = Refusal {
        line: b"{\"type\":\"CityJSONFeature\",}",
        depth: 64,
        place: 26,
        reason: Reason::Syntax,
        peaks: held(167, 24, 3),
    };
    check_refused(&rt, rt.alloc(), &refusal)
}

/// The line is cut within the value of the geometry's type. 15 values and names come before it.
#[test]
fn a_feature_cut_short(rt: HostRuntime) -> Result<(), Fail> {
    let refusal = Refusal {
        line: &FEATURE[..100],
        depth: 64,
        place: 100,
        reason: Reason::Syntax,
        peaks: held(240, 36, 5),
    };
    check_refused(&rt, rt.alloc(), &refusal)
}

#[test]
fn bytes_before_syntax(rt: HostRuntime) -> Result<(), Fail> {
    let refusal = Refusal {
        line: b"}\xff",
        depth: 64,
        place: 1,
        reason: Reason::NotUtf8,
        peaks: held(142, 21, 3),
    };
    check_refused(&rt, rt.alloc(), &refusal)
}

/// Runs by single bytes over a header and a line that is no JSON text from a place on.
pub fn check_place(rt: &impl Abort, alloc: Global, line: &[u8], place: u64) -> Result<(), Fail> {
    let text = joined(alloc, &[FIRST, line])?;
    let ended = ended_by_bytes(alloc, &text, Limits::usual());
    check_at(
        rt,
        ended,
        refused(2, place, Reason::Syntax),
        "syntax",
        place,
    );
    Ok(())
}

/// Lines, and from which byte on they are no JSON text.
const PLACES: [(&[u8], u64); 7] = [
    (b"01", 1),
    (b"-", 1),
    (b"[1,]", 3),
    (b"\"\\q\"", 2),
    (b"tru}", 3),
    (b"{} x", 3),
    (b"[1", 2),
];

#[test]
fn places_of_syntax(rt: HostRuntime) -> Result<(), Fail> {
    for (line, place) in &PLACES {
        check_place(&rt, rt.alloc(), line, *place)?;
    }
    Ok(())
}

/// Runs over a text whose first line is no JSON text from its first byte on.
fn check_first(rt: &impl Abort, alloc: Global, text: &[u8], bytes: u64) {
    let wanted = Wanted {
        name: "no JSON text at first",
        written: b"",
        outcome: outcome(0, 0, held(bytes, 0, 0), refused(1, 0, Reason::Syntax)),
    };
    check_run(rt, alloc, text, 8_192, Limits::usual(), &wanted);
    check_run(rt, alloc, text, 1, Limits::usual(), &wanted);
}

#[test]
fn a_blank_first_line(rt: HostRuntime) {
    check_first(&rt, rt.alloc(), b"\n", 0);
}

#[test]
fn a_byte_order_mark(rt: HostRuntime) -> Result<(), Fail> {
    let text = joined(rt.alloc(), &[b"\xef\xbb\xbf", HEADER])?;
    check_first(&rt, rt.alloc(), &text, 143);
    Ok(())
}

/// One bracket more than the greatest depth limit.
const BRACKETS: [u8; 1_025] = [b'['; 1_025];

#[test]
fn brackets_past_the_greatest_depth_limit(rt: HostRuntime) -> Result<(), Fail> {
    let refusal = Refusal {
        line: &BRACKETS,
        depth: 1_024,
        place: 1_024,
        reason: Reason::TooDeep,
        peaks: held(1_165, 1_045, 1_024),
    };
    check_refused(&rt, rt.alloc(), &refusal)
}

#[test]
fn brackets_up_to_the_greatest_depth_limit(rt: HostRuntime) -> Result<(), Fail> {
    let refusal = Refusal {
        line: &BRACKETS[..1_024],
        depth: 1_024,
        place: 1_024,
        reason: Reason::Syntax,
        peaks: held(1_164, 1_045, 1_024),
    };
    check_refused(&rt, rt.alloc(), &refusal)
}

#[test]
fn brackets_past_the_usual_depth_limit(rt: HostRuntime) -> Result<(), Fail> {
    let refusal = Refusal {
        line: &BRACKETS,
        depth: 64,
        place: 64,
        reason: Reason::TooDeep,
        peaks: held(1_165, 85, 64),
    };
    check_refused(&rt, rt.alloc(), &refusal)
}

#[test]
fn a_character_of_three_bytes(rt: HostRuntime) -> Result<(), Fail> {
    let [front, name, value, end, back] = attributed(b"\xe2\x82\xac");
    let text = [FIRST, front, name, value, end, back, b"\n"];
    let wanted = outcome(2, 1, held(375, 69, 8), End::Complete);
    check_usual(&rt, rt.alloc(), &text, &text, wanted)
}

/// Runs over a header and a line whose character at byte 170 is cut short.
fn check_cut_character(
    rt: &impl Abort,
    alloc: Global,
    text: &[&[u8]],
    bytes: u64,
) -> Result<(), Fail> {
    let ended = refused(2, 170, Reason::NotUtf8);
    let wanted = outcome(1, 0, held(bytes, 21, 3), ended);
    check_usual(rt, alloc, text, &[FIRST], wanted)
}

#[test]
fn two_bytes_of_a_character(rt: HostRuntime) -> Result<(), Fail> {
    let [front, name, value, end, back] = attributed(b"\xe2\x82");
    let text = [FIRST, front, name, value, end, back, b"\n"];
    check_cut_character(&rt, rt.alloc(), &text, 374)?;
    let text = [FIRST, front, name, value, b"\n"];
    check_cut_character(&rt, rt.alloc(), &text, 312)
}

#[test]
fn nothing_is_judged_after_a_refused_line(rt: HostRuntime) -> Result<(), Fail> {
    let ended = refused(3, 144, Reason::VertexIndex);
    let wanted = outcome(2, 1, held(350, 65, 8), ended);
    check_usual(&rt, rt.alloc(), &[THIRD_REFUSED], &[STREAM], wanted)
}

/// Checks that an invalid first line is not in the output, without its LF and with more after it.
fn check_refused_first(
    rt: &impl Abort,
    alloc: Global,
    text: &[u8],
    peaks: Peaks,
    ended: End,
) -> Result<(), Fail> {
    let outcome = outcome(0, 0, peaks, ended);
    check_usual(rt, alloc, &[text], &[], outcome)?;
    let more = joined(alloc, &[text, b"\n", FIRST])?;
    let wanted = Wanted {
        name: "a first line",
        written: b"",
        outcome,
    };
    check_run(rt, alloc, &more, 8_192, Limits::usual(), &wanted);
    Ok(())
}

#[test]
fn an_older_version(rt: HostRuntime) -> Result<(), Fail> {
    let line = joined(rt.alloc(), &[&HEADER[..29], b"\"1.1\"", &HEADER[34..]])?;
    let ended = refused(1, 29, Reason::WrongVersion);
    check_refused_first(&rt, rt.alloc(), &line, held(140, 21, 3), ended)
}

#[test]
fn a_feature_as_first_line(rt: HostRuntime) -> Result<(), Fail> {
    let ended = refused(1, 0, Reason::MissingMember);
    check_refused_first(&rt, rt.alloc(), FEATURE, held(210, 44, 8), ended)
}

#[test]
fn a_header_as_later_line(rt: HostRuntime) -> Result<(), Fail> {
    let ended = refused(2, 0, Reason::MissingMember);
    let wanted = outcome(1, 0, held(280, 42, 3), ended);
    check_usual(&rt, rt.alloc(), &[FIRST, FIRST], &[FIRST], wanted)
}

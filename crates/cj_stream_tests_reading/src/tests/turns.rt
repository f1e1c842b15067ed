//! What both states return, call by call: where one becomes the other, and after an end.
use super::calls::{check_at, check_bytes};
use super::states::{by_states, usual_header};
use super::turn_steps::{HeaderStep, LineStep, check_turns, written_by_turns};
use cj_spans::Reason;
use cj_stream::{CountSink, HeaderEnd, LineEnd, Query};
use cj_stream_testkit::{FEATURE, FIRST, HEADER, STREAM, THIRD_REFUSED, held, joined};
use std::alloc::Global;
use std::process::Abort;
use std::test::Fail;

/// The end at the third line, whose last vertex index is out of range.
const THIRD: LineEnd = LineEnd::Refused {
    line: 3,
    place: 144,
    reason: Reason::VertexIndex,
};

/// Counts nothing yet.
const NONE: CountSink = CountSink {
    headers: 0,
    features: 0,
};

/// Returns the steps of the header with its LF between empty pieces. The header is accepted.
fn header_steps() -> [HeaderStep<'static>; 9] {
    [
        HeaderStep::Feed(b"", 0, false),
        HeaderStep::Held(held(0, 0, 0), held(0, 0, 0)),
        HeaderStep::Feed(HEADER, 140, false),
        HeaderStep::Held(held(140, 0, 0), held(140, 0, 0)),
        HeaderStep::Feed(b"", 0, false),
        HeaderStep::Counts(140, 0),
        HeaderStep::Feed(b"\n", 1, true),
        HeaderStep::Held(held(140, 21, 0), held(140, 21, 3)),
        HeaderStep::Counts(141, 1),
    ]
}

/// Returns the steps of a feature in two parts, and of the end.
fn feature_steps() -> [LineStep<'static>; 12] {
    [
        LineStep::Held(held(140, 21, 0), held(140, 21, 3)),
        LineStep::Counts(141, 1, 0),
        LineStep::Feed(&FEATURE[..100], Ok(())),
        LineStep::Held(held(240, 21, 0), held(240, 21, 3)),
        LineStep::Feed(b"", Ok(())),
        LineStep::Feed(&FEATURE[100..], Ok(())),
        LineStep::Counts(351, 1, 0),
        LineStep::Feed(b"\n", Ok(())),
        LineStep::Held(held(140, 21, 0), held(350, 65, 8)),
        LineStep::Counts(352, 2, 1),
        LineStep::Finish(LineEnd::Complete),
        LineStep::Counts(352, 2, 1),
    ]
}

#[test]
fn both_states_tell_what_they_hold(rt: HostRuntime) -> Result<(), Fail> {
    let mut sink = NONE;
    check_turns(
        &rt,
        rt.alloc(),
        &header_steps(),
        &feature_steps(),
        &mut sink,
    )?;
    check_at(&rt, sink.headers, 1, "headers", 0);
    check_at(&rt, sink.features, 1, "features", 0);
    Ok(())
}

#[test]
fn a_piece_that_begins_with_lf(rt: HostRuntime) -> Result<(), Fail> {
    let header = [
        HeaderStep::Feed(HEADER, 140, false),
        HeaderStep::Feed(b"\n{}\n", 1, true),
        HeaderStep::Counts(141, 1),
    ];
    let lines = [
        LineStep::Counts(141, 1, 0),
        LineStep::Peaks(held(140, 21, 3)),
    ];
    let written = written_by_turns(&rt, rt.alloc(), &header, &lines)?;
    check_bytes(&rt, &written, FIRST, "a piece that begins with LF", 0);
    Ok(())
}

#[test]
fn a_piece_that_ends_with_lf(rt: HostRuntime) -> Result<(), Fail> {
    let header = [
        HeaderStep::Feed(FIRST, 141, true),
        HeaderStep::Counts(141, 1),
    ];
    let lines = [
        LineStep::Finish(LineEnd::Complete),
        LineStep::Counts(141, 1, 0),
        LineStep::Held(held(140, 21, 0), held(140, 21, 3)),
    ];
    let written = written_by_turns(&rt, rt.alloc(), &header, &lines)?;
    check_bytes(&rt, &written, FIRST, "a header with its LF", 0);
    Ok(())
}

/// Takes the header without its LF, and the end, and then what comes after that.
#[test]
fn a_header_without_lf_stays_the_end(rt: HostRuntime) -> Result<(), Fail> {
    let header = [
        HeaderStep::Feed(HEADER, 140, false),
        HeaderStep::Finish(HeaderEnd::Complete),
        HeaderStep::Counts(140, 1),
        HeaderStep::Held(held(140, 21, 0), held(140, 21, 3)),
        HeaderStep::Again(b"\n", HeaderEnd::Complete),
        HeaderStep::Counts(140, 1),
        HeaderStep::Held(held(140, 21, 0), held(140, 21, 3)),
    ];
    let written = written_by_turns(&rt, rt.alloc(), &header, &[])?;
    check_bytes(&rt, &written, HEADER, "a header alone", 0);
    Ok(())
}

/// Takes a feature as the first line, and then what comes after an end.
fn refused_first(text: &[u8]) -> [HeaderStep<'_>; 4] {
    let end = HeaderEnd::Refused {
        line: 1,
        place: 0,
        reason: Reason::MissingMember,
    };
    [
        HeaderStep::Refuse(text, end),
        HeaderStep::Again(b"\n", end),
        HeaderStep::Again(HEADER, end),
        HeaderStep::Counts(0, 0),
    ]
}

#[test]
fn an_end_of_a_header_stays_the_end(rt: HostRuntime) -> Result<(), Fail> {
    let text = joined(rt.alloc(), &[FEATURE, b"\n", FEATURE, b"\n"])?;
    let written = written_by_turns(&rt, rt.alloc(), &refused_first(&text), &[])?;
    check_bytes(&rt, &written, b"", "a feature first", 0);
    Ok(())
}

/// Takes lines whose third is invalid, and then what comes after an end.
#[test]
fn an_end_of_lines_stays_the_end(rt: HostRuntime) -> Result<(), Fail> {
    let header = [HeaderStep::Feed(THIRD_REFUSED, 141, true)];
    let lines = [
        LineStep::Feed(&THIRD_REFUSED[141..], Err(THIRD)),
        LineStep::Peaks(held(350, 65, 8)),
        LineStep::Again(b"\n", THIRD),
        LineStep::Again(FEATURE, THIRD),
        LineStep::Peaks(held(350, 65, 8)),
        LineStep::Counts(141, 2, 1),
    ];
    let written = written_by_turns(&rt, rt.alloc(), &header, &lines)?;
    check_bytes(&rt, &written, STREAM, "an end of lines", 0);
    Ok(())
}

/// Returns the steps of the header by single bytes. It is accepted only with the LF.
fn header_by_bytes(alloc: Global) -> Result<Vec<HeaderStep<'static>>, Fail> {
    let mut steps = Vec::new(alloc);
    for byte in HEADER.chunks(1) {
        steps.push(HeaderStep::Feed(byte, 1, false))?;
    }
    steps.push(HeaderStep::Feed(b"\n", 1, true))?;
    Ok(steps)
}

/// Returns the steps of lines by single bytes. The byte at `last` is the end, and each later one
/// returns it again.
fn lines_by_bytes(
    alloc: Global,
    rest: &[u8],
    last: usize,
    end: LineEnd,
) -> Result<Vec<LineStep<'_>>, Fail> {
    let mut steps = Vec::new(alloc);
    for (at, byte) in rest.chunks(1).enumerate() {
        let wanted = if at < last { Ok(()) } else { Err(end) };
        steps.push(LineStep::Feed(byte, wanted))?;
    }
    for step in &[
        LineStep::Finish(end),
        LineStep::Finish(end),
        LineStep::Counts(562, 2, 1),
    ] {
        steps.push(*step)?;
    }
    Ok(steps)
}

#[test]
fn an_end_of_lines_stays_by_single_bytes(rt: HostRuntime) -> Result<(), Fail> {
    let header = header_by_bytes(rt.alloc())?;
    let lines = lines_by_bytes(rt.alloc(), &THIRD_REFUSED[141..], 562 - 141, THIRD)?;
    let written = written_by_turns(&rt, rt.alloc(), &header, &lines)?;
    check_bytes(&rt, &written, STREAM, "by single bytes", 0);
    Ok(())
}

/// Returns the bytes of a stream that both states have taken.
fn taken_by_states(rt: &impl Abort, alloc: Global, pieces: &[&[u8]]) -> Result<u64, Fail> {
    let query = Query::all(alloc);
    let header = usual_header(alloc, &query)?;
    let (_, taken) = by_states(rt, header, pieces, &mut NONE);
    Ok(taken)
}

/// Compares what is taken of a stream with a header of 140 bytes, cut in two at this place. Calls
/// that return `Ok` take all bytes up to the one that is the end. Of the piece with that byte the
/// states take the header.
fn check_taken(
    rt: &impl Abort,
    alloc: Global,
    text: &[u8],
    at: usize,
    last: usize,
) -> Result<(), Fail> {
    assert!(rt; at <= text.len());
    let whole = if at <= last { at as u64 } else { 0 };
    let states = taken_by_states(rt, alloc, &[&text[..at], &text[at..]])?;
    check_at(rt, states, whole.max(141), "taken by the states", at as u64);
    Ok(())
}

#[test]
fn what_is_taken_of_a_refused_stream(rt: HostRuntime) -> Result<(), Fail> {
    for at in 0..THIRD_REFUSED.len() {
        check_taken(&rt, rt.alloc(), THIRD_REFUSED, at, 562)?;
    }
    Ok(())
}

//! Rows of an engine that is called step by step.
use super::calls::{check_at, check_bytes};
use super::steps::{Opening, Step, written_by_steps};
use cj_spans::Reason;
use cj_stream::End;
use cj_stream_testkit::{FEATURE, FIRST, HEADER, STREAM, THIRD_REFUSED, held, joined, refused};
use std::alloc::Global;
use std::process::Abort;
use std::test::Fail;

/// Takes a stream whose third line is invalid in this way, and then what comes after an end.
fn check_end(
    rt: &impl Abort,
    alloc: Global,
    line: u64,
    text: &[u8],
    end: End,
    wanted: &[u8],
) -> Result<(), Fail> {
    let steps = [
        Step::Counts(0, 0, 0),
        Step::Feed(text, Err(end)),
        Step::PeakOfBytes(350),
        Step::Again(FEATURE, end),
        Step::Counts(0, 2, 1),
        Step::Reported(0, ""),
    ];
    let opening = Opening {
        line,
        ..Opening::usual()
    };
    let written = written_by_steps(rt, alloc, &opening, &steps)?;
    check_bytes(rt, &written, wanted, "an end stays", line);
    Ok(())
}

#[test]
fn an_end_stays_the_end(rt: HostRuntime) -> Result<(), Fail> {
    let text = joined(rt.alloc(), &[STREAM, FEATURE, b" \n"])?;
    check_at(&rt, text.len() as u64, 564, "bytes of the text", 0);
    let end = refused(3, 210, Reason::LineTooLong);
    check_end(&rt, rt.alloc(), 210, &text, end, STREAM)
}

#[test]
fn an_end_by_a_finding_stays_the_end(rt: HostRuntime) -> Result<(), Fail> {
    let end = refused(3, 144, Reason::VertexIndex);
    check_end(&rt, rt.alloc(), 8_388_608, THIRD_REFUSED, end, STREAM)
}

/// The engine takes nothing of a piece with a header and an invalid line. The two states take the
/// header.
#[test]
fn a_piece_whose_second_line_is_refused(rt: HostRuntime) -> Result<(), Fail> {
    let text = joined(rt.alloc(), &[FIRST, b"{}\n"])?;
    let end = refused(2, 0, Reason::MissingMember);
    let steps = [Step::Feed(&text, Err(end)), Step::Counts(0, 1, 0)];
    let _ = written_by_steps(&rt, rt.alloc(), &Opening::usual(), &steps)?;
    Ok(())
}

/// Returns the steps of a stream by single bytes. The byte at `last` is the end, and each later one
/// returns it again.
fn single_bytes(alloc: Global, text: &[u8], last: usize, end: End) -> Result<Vec<Step<'_>>, Fail> {
    let mut steps = Vec::new(alloc);
    for (at, byte) in text.chunks(1).enumerate() {
        let wanted = if at < last { Ok(()) } else { Err(end) };
        steps.push(Step::Feed(byte, wanted))?;
    }
    for step in [
        Step::Finish(end),
        Step::Finish(end),
        Step::Counts(last as u64, 2, 1),
        Step::Reported(0, ""),
    ] {
        steps.push(step)?;
    }
    Ok(steps)
}

#[test]
fn an_end_stays_by_single_bytes(rt: HostRuntime) -> Result<(), Fail> {
    let end = refused(3, 144, Reason::VertexIndex);
    let steps = single_bytes(rt.alloc(), THIRD_REFUSED, 562, end)?;
    let written = written_by_steps(&rt, rt.alloc(), &Opening::usual(), &steps)?;
    check_bytes(&rt, &written, STREAM, "by single bytes", 0);
    Ok(())
}

/// Gives a stream, cut in two at this place. The engine takes the first piece, unless the byte at
/// `last` is in it. Of the piece with that byte, which is the end, it takes nothing.
fn check_taken(
    rt: &impl Abort,
    alloc: Global,
    text: &[u8],
    at: usize,
    last: usize,
    end: End,
) -> Result<(), Fail> {
    assert!(rt; at <= text.len());
    let (first, taken) = if at <= last {
        (Ok(()), at)
    } else {
        (Err(end), 0)
    };
    let steps = [
        Step::Feed(&text[..at], first),
        Step::Feed(&text[at..], Err(end)),
        Step::Counts(taken as u64, 2, 1),
    ];
    let written = written_by_steps(rt, alloc, &Opening::usual(), &steps)?;
    check_bytes(rt, &written, STREAM, "taken by the engine", at as u64);
    Ok(())
}

#[test]
fn what_an_engine_takes_of_a_refused_stream(rt: HostRuntime) -> Result<(), Fail> {
    let end = refused(3, 144, Reason::VertexIndex);
    for at in 0..THIRD_REFUSED.len() {
        check_taken(&rt, rt.alloc(), THIRD_REFUSED, at, 562, end)?;
    }
    Ok(())
}

/// A header, its LF, and a feature in two parts.
#[test]
fn what_is_held_is_told(rt: HostRuntime) -> Result<(), Fail> {
    let steps = [
        Step::Feed(HEADER, Ok(())),
        Step::Held(held(140, 0, 0), held(140, 0, 0)),
        Step::Feed(b"\n", Ok(())),
        Step::HeldWithHeader(140, 140),
        Step::Feed(&FEATURE[..100], Ok(())),
        Step::HeldWithHeader(240, 240),
        Step::Counts(241, 1, 0),
        Step::Feed(&FEATURE[100..], Ok(())),
        Step::Finish(End::Complete),
        Step::Held(held(140, 21, 0), held(350, 65, 8)),
        Step::Counts(351, 2, 1),
        Step::Reported(0, ""),
    ];
    let written = written_by_steps(&rt, rt.alloc(), &Opening::usual(), &steps)?;
    check_bytes(&rt, &written, &STREAM[..351], "in parts", 0);
    Ok(())
}

//! Lines that are too long, step by step: what is held and returned while their bytes come, and
//! when they are reported. The line limit is always 210.
use super::calls::{check_bytes, check_joined};
use super::steps::{Opening, Step, written_by_steps};
use cj_stream::End;
use cj_stream_testkit::{FEATURE, FIRST, HEADER, STREAM, THIRD_REFUSED, going, held, joined};
use std::alloc::Global;
use std::process::Abort;
use std::test::Fail;

/// Nothing is reported yet.
const SILENT: Step = Step::Reported(0, "");

/// The second line was reported, and no other.
const REPORTED: Step = Step::Reported(1, "2 210 2\n");

/// The steps of the header, and of a line of 210 bytes and five more. The line is held until a byte
/// comes that does not fit. After that nothing of it is held.
const LONG_LINE: [Step; 15] = [
    Step::Feed(HEADER, Ok(())),
    Step::Feed(b"\n", Ok(())),
    Step::HeldWithHeader(140, 140),
    Step::Feed(FEATURE, Ok(())),
    Step::HeldWithHeader(350, 350),
    Step::Feed(b"", Ok(())),
    Step::HeldWithHeader(350, 350),
    Step::Feed(b" ", Ok(())),
    Step::HeldWithHeader(140, 350),
    SILENT,
    Step::Feed(b"", Ok(())),
    Step::Feed(b"    ", Ok(())),
    Step::HeldWithHeader(140, 350),
    SILENT,
    Step::Counts(356, 1, 0),
];

/// Gives the line that is too long, and takes these steps after it. Returns what is written.
fn behind_long_line(rt: &impl Abort, alloc: Global, more: &[Step]) -> Result<Vec<u8>, Fail> {
    let mut steps = Vec::new(alloc);
    for step in &LONG_LINE {
        steps.push(*step)?;
    }
    for step in more {
        steps.push(*step)?;
    }
    written_within(rt, alloc, 64, &steps)
}

/// Takes steps of an engine that goes on, within this depth. Returns what is written.
fn written_within(
    rt: &impl Abort,
    alloc: Global,
    depth: u64,
    steps: &[Step],
) -> Result<Vec<u8>, Fail> {
    let opening = Opening {
        line: 210,
        depth,
        options: going(),
    };
    written_by_steps(rt, alloc, &opening, steps)
}

/// The LF of the line, and the end.
const LF_AND_END: [Step; 7] = [
    Step::Feed(b"\n", Ok(())),
    Step::HeldWithHeader(140, 350),
    REPORTED,
    Step::Counts(357, 2, 0),
    Step::Finish(End::Complete),
    Step::HeldWithHeader(140, 350),
    REPORTED,
];

#[test]
fn a_line_too_long_by_steps(rt: HostRuntime) -> Result<(), Fail> {
    let written = behind_long_line(&rt, rt.alloc(), &LF_AND_END)?;
    check_bytes(&rt, &written, FIRST, "too long", 0);
    Ok(())
}

/// The end of the line is that of the stream, and it is reported then.
const END: [Step; 4] = [
    Step::Finish(End::Complete),
    Step::HeldWithHeader(140, 350),
    REPORTED,
    Step::Counts(356, 2, 0),
];

#[test]
fn a_last_line_too_long_by_steps(rt: HostRuntime) -> Result<(), Fail> {
    let written = behind_long_line(&rt, rt.alloc(), &END)?;
    check_bytes(&rt, &written, FIRST, "too long at last", 0);
    Ok(())
}

/// Gives the header with the front of a line, the rest of it, which is too long, and its LF.
fn check_cut_line<'a>(
    rt: &impl Abort,
    alloc: Global,
    header: &'a [u8],
    long: &'a [u8],
) -> Result<(), Fail> {
    let steps = [
        Step::Feed(header, Ok(())),
        Step::HeldWithHeader(240, 240),
        SILENT,
        Step::Feed(long, Ok(())),
        Step::HeldWithHeader(140, 350),
        SILENT,
        Step::Feed(b"\n", Ok(())),
        Step::HeldWithHeader(140, 350),
        REPORTED,
    ];
    let _ = written_within(rt, alloc, 64, &steps)?;
    Ok(())
}

/// The bytes of a line that fit are stored first, also if the part that is too long comes after one
/// that fits.
#[test]
fn what_fits_counts_whatever_the_cut(rt: HostRuntime) -> Result<(), Fail> {
    let long = joined(rt.alloc(), &[FEATURE, FEATURE])?;
    check_cut_line(&rt, rt.alloc(), &STREAM[..241], &long)
}

/// Gives the LF of the dropped line with the first 200 bytes of the next one, and then its rest.
/// Returns what is written.
fn after_long_line<'a>(
    rt: &impl Abort,
    alloc: Global,
    front: &'a [u8],
    rest: &'a [u8],
) -> Result<Vec<u8>, Fail> {
    let steps = [
        Step::Feed(front, Ok(())),
        Step::HeldWithHeader(340, 350),
        REPORTED,
        Step::Feed(rest, Ok(())),
        Step::Finish(End::Complete),
        Step::Held(held(140, 21, 0), held(350, 65, 8)),
        REPORTED,
    ];
    behind_long_line(rt, alloc, &steps)
}

/// After a line that was dropped, the next one is held from its first byte.
#[test]
fn the_line_after_one_that_is_dropped(rt: HostRuntime) -> Result<(), Fail> {
    let front = joined(rt.alloc(), &[b"\n", &FEATURE[..200]])?;
    let written = after_long_line(&rt, rt.alloc(), &front, &FEATURE[200..])?;
    check_joined(
        &rt,
        rt.alloc(),
        &written,
        &[FIRST, FEATURE],
        "the line after",
        0,
    )
}

/// Gives a header with a line that is too deep, and a line whose last vertex index is invalid.
fn check_refused_lines<'a>(
    rt: &impl Abort,
    alloc: Global,
    deep: &'a [u8],
    line: &'a [u8],
) -> Result<(), Fail> {
    let steps = [
        Step::Feed(deep, Ok(())),
        Step::Held(held(140, 21, 0), held(149, 29, 8)),
        Step::Feed(line, Ok(())),
        Step::Held(held(140, 21, 0), held(350, 65, 8)),
        Step::Reported(2, "2 8 5\n3 144 25\n"),
    ];
    let _ = written_within(rt, alloc, 8, &steps)?;
    Ok(())
}

/// The lists of an invalid line are emptied like those of any other, with its open containers.
#[test]
fn a_refused_line_is_held_no_longer(rt: HostRuntime) -> Result<(), Fail> {
    let deep = joined(rt.alloc(), &[FIRST, b"[[[[[[[[[\n"])?;
    let third = &THIRD_REFUSED[352..563];
    check_refused_lines(&rt, rt.alloc(), &deep, third)
}

//! Lines longer than one read, given at once and in very many pieces.
use super::calls::{check_at, check_bytes};
use super::steps::{Opening, Step, written_by_steps};
use cj_budget::Limits;
use cj_stream::{End, Outcome};
use cj_stream_testkit::{FEATURE, FIRST, SlowReader, attributed, copied, held, joined, outcome};
use std::alloc::Global;
use std::process::Abort;
use std::test::Fail;

/// Returns this number of digits, 1 to 9 again and again.
fn digits(alloc: Global, count: usize) -> Result<Vec<u8>, Fail> {
    let mut digits = Vec::new(alloc);
    for i in 0..count {
        digits.push(b'1' + (i % 9) as u8)?;
    }
    Ok(digits)
}

/// Returns a header, and a feature of this number of bytes. 232 of them are not digits of its
/// attribute.
pub fn long_text(alloc: Global, length: usize) -> Result<Vec<u8>, Fail> {
    let digits = digits(alloc, length.saturating_sub(232))?;
    let [front, name, value, end, back] = attributed(&digits);
    Ok(joined(alloc, &[FIRST, front, name, value, end, back, b"\n"])?)
}

/// Runs over a reader that gives `step` bytes per read. All of the text is written.
fn check_run(rt: &impl Abort, alloc: Global, text: &[u8], step: usize, wanted: Outcome, row: &str) {
    let mut reader = SlowReader::new(text, step);
    let (outcome, written) = copied(alloc, &mut reader, Limits::usual());
    check_at(rt, outcome, wanted, row, step as u64);
    check_bytes(rt, &written, text, row, step as u64);
}

/// Gives a stream in pieces of `step` bytes, and its end, and compares the outcome.
fn by_pieces<'a>(
    rt: &impl Abort,
    alloc: Global,
    text: &'a [u8],
    step: usize,
    wanted: Outcome,
) -> Result<Vec<Step<'a>>, Fail> {
    assert!(rt; step > 0);
    let mut steps = Vec::new(alloc);
    for piece in text.chunks(step) {
        steps.push(Step::Feed(piece, Ok(())))?;
    }
    for step in [
        Step::Finish(wanted.ended),
        Step::Counts(text.len() as u64, wanted.lines, wanted.kept),
        Step::Held(held(140, 21, 0), wanted.peaks),
        Step::Reported(0, ""),
    ] {
        steps.push(step)?;
    }
    Ok(steps)
}

/// Gives a stream to an engine in pieces of `step` bytes. All of the text is written.
fn check_pieces(
    rt: &impl Abort,
    alloc: Global,
    text: &[u8],
    step: usize,
    wanted: Outcome,
    row: &str,
) -> Result<(), Fail> {
    let steps = by_pieces(rt, alloc, text, step, wanted)?;
    let written = written_by_steps(rt, alloc, &Opening::usual(), &steps)?;
    check_bytes(rt, &written, text, row, step as u64);
    Ok(())
}

/// Runs over a header and a feature of this number of bytes, by whole reads and by shorter ones.
/// Feeds them in one piece, in one piece with the LF after it, and in pieces of 50 bytes.
fn check_long_line(rt: &impl Abort, alloc: Global, length: usize) -> Result<(), Fail> {
    let text = long_text(alloc, length)?;
    let bytes = (length as u64).saturating_add(140);
    let wanted = outcome(2, 1, held(bytes, 69, 8), End::Complete);
    check_run(rt, alloc, &text, 1_000_000, wanted, "long line");
    check_run(rt, alloc, &text, 8_191, wanted, "long line");
    let but_one = text.len().saturating_sub(1);
    for step in &[text.len(), but_one, 50] {
        check_pieces(rt, alloc, &text, *step, wanted, "long line")?;
    }
    Ok(())
}

#[test]
fn a_line_one_byte_longer_than_a_read(rt: HostRuntime) -> Result<(), Fail> {
    check_long_line(&rt, rt.alloc(), 8_193)
}

#[test]
fn a_line_of_a_hundred_thousand_bytes(rt: HostRuntime) -> Result<(), Fail> {
    check_long_line(&rt, rt.alloc(), 100_000)
}

/// With pieces of 50 bytes there are 20,003.
#[test]
fn a_line_of_a_million_bytes(rt: HostRuntime) -> Result<(), Fail> {
    check_long_line(&rt, rt.alloc(), 1_000_000)
}

/// Returns a header and this number of features.
pub fn many_features(alloc: Global, features: usize) -> Result<Vec<u8>, Fail> {
    let mut text = FIRST.to_vec(alloc)?;
    for _i in 0..features {
        text.extend_from_slice(FEATURE)?;
        text.push(b'\n')?;
    }
    Ok(text)
}

#[test]
fn a_thousand_features_in_a_piece(rt: HostRuntime) -> Result<(), Fail> {
    let text = many_features(rt.alloc(), 1_000)?;
    let wanted = outcome(1_001, 1_000, held(350, 65, 8), End::Complete);
    let row = "a thousand features";
    check_run(&rt, rt.alloc(), &text, 1_000_000, wanted, row);
    check_pieces(&rt, rt.alloc(), &text, text.len(), wanted, row)
}

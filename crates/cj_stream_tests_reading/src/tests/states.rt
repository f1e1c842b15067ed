//! Rows through the two states, with every cut, and what both return where one becomes the other.
use super::calls::{check_at, check_bytes, check_same};
use super::rows::Wanted;
use super::turn_steps::{HeaderStep, LineStep, written_by_turns};
use cj_budget::Limits;
use cj_spans::Reason;
use cj_stream::{
    End, HeaderEnd, HeaderReader, LineEnd, LineReader, LineSink, NoReports, Outcome, Progress,
    Query, WriteSink,
};
use cj_stream_testkit::{
    FEATURE, FIRST, HEADER, Reading, SMALL, STREAM, THIRD_REFUSED, held, joined, outcome, refused,
};
use std::alloc::Global;
use std::process::Abort;
use std::test::Fail;

/// Returns the reader of a header. The proof of a test that opens one itself would get all that the
/// contract says.
pub fn header_opened<'q>(alloc: Global, reading: &Reading<'q>) -> Result<HeaderReader<'q>, Fail> {
    let (limits, query, options) = (reading.limits, reading.query, reading.options);
    Ok(HeaderReader::open(alloc, limits, query, options)?)
}

/// Returns one within the default limits, without options.
pub fn usual_header(alloc: Global, query: &Query) -> Result<HeaderReader<'_>, Fail> {
    header_opened(alloc, &Reading::usual(Limits::usual(), query))
}

/// Gives a piece to the reader of a header.
pub fn feed_header<S: LineSink>(
    rt: &impl Abort,
    header: &mut HeaderReader,
    piece: &[u8],
    sink: &mut S,
) -> Result<Progress, HeaderEnd> {
    assert!(rt; !header.accepted());
    assert!(rt; header.taken() <= 1_000_000 && piece.len() <= 1_000_000);
    header.feed(piece, sink)
}

/// Gives a piece to the reader of lines.
pub fn feed_lines<S: LineSink>(
    rt: &impl Abort,
    lines: &mut LineReader,
    piece: &[u8],
    sink: &mut S,
) -> Result<(), LineEnd> {
    assert!(rt; lines.taken() <= 1_000_000 && piece.len() <= 1_000_000);
    lines.feed(piece, sink, &mut NoReports)
}

/// Ends a stream whose header was not accepted.
pub fn finish_header<S: LineSink>(
    rt: &impl Abort,
    header: &mut HeaderReader,
    sink: &mut S,
) -> HeaderEnd {
    assert!(rt; !header.accepted());
    header.finish(sink)
}

/// Returns the reader of the lines after an accepted header. It reports what that reader did.
pub fn turned<'q>(rt: &impl Abort, header: HeaderReader<'q>) -> LineReader<'q> {
    assert!(rt; header.accepted());
    header.into_lines()
}

/// Gives pieces to the reader of a header until it accepts. Returns how many it has used before,
/// and the bytes used of the next.
fn until_accepted<S: LineSink>(
    rt: &impl Abort,
    header: &mut HeaderReader,
    pieces: &[&[u8]],
    sink: &mut S,
) -> Result<Option<(usize, usize)>, HeaderEnd> {
    for (at, piece) in pieces.iter().enumerate() {
        let progress = feed_header(rt, header, piece, sink)?;
        if progress.accepted {
            return Ok(Some((at, progress.used)));
        }
    }
    Ok(None)
}

/// Gives pieces to the reader of lines, and the end.
fn to_the_end<S: LineSink>(
    rt: &impl Abort,
    lines: &mut LineReader,
    pieces: &[&[u8]],
    sink: &mut S,
) -> LineEnd {
    for piece in pieces {
        if let Err(end) = feed_lines(rt, lines, piece, sink) {
            return end;
        }
    }
    lines.finish(sink, &mut NoReports)
}

/// Gives the rest of the pieces after a header to the reader of lines, and the end.
fn behind_header<S: LineSink>(
    rt: &impl Abort,
    lines: &mut LineReader,
    pieces: &[&[u8]],
    at: usize,
    used: usize,
    sink: &mut S,
) -> LineEnd {
    assert!(rt; at < pieces.len());
    assert!(rt; used <= pieces[at].len());
    let rest = &pieces[at][used..];
    match feed_lines(rt, lines, rest, sink) {
        Ok(()) => to_the_end(rt, lines, &pieces[at + 1..], sink),
        Err(end) => end,
    }
}

/// Gives the rest of the pieces after an accepted header to the reader of lines that its reader
/// becomes, and the end. Returns how it went, and the bytes that are taken.
fn by_lines<S: LineSink>(
    rt: &impl Abort,
    header: HeaderReader,
    pieces: &[&[u8]],
    at: usize,
    used: usize,
    sink: &mut S,
) -> (Outcome, u64) {
    let mut lines = turned(rt, header);
    let end = behind_header(rt, &mut lines, pieces, at, used, sink);
    let told = outcome(lines.lines(), lines.kept(), lines.peaks(), End::from(end));
    (told, lines.taken())
}

/// Returns what the reader of a header that ends the stream says of it, and the bytes that it has
/// taken.
fn told_by_header(header: &HeaderReader, end: HeaderEnd) -> (Outcome, u64) {
    let (lines, kept) = (header.lines(), header.kept());
    let told = outcome(lines, kept, header.peaks(), End::from(end));
    (told, header.taken())
}

/// Gives pieces to both states, one after the other, and the end. Returns how it went, and the
/// bytes that both have taken.
pub fn by_states<S: LineSink>(
    rt: &impl Abort,
    header: HeaderReader,
    pieces: &[&[u8]],
    sink: &mut S,
) -> (Outcome, u64) {
    let mut header = header;
    match until_accepted(rt, &mut header, pieces, sink) {
        Ok(Some((at, used))) => by_lines(rt, header, pieces, at, used, sink),
        Ok(None) => {
            let end = finish_header(rt, &mut header, sink);
            told_by_header(&header, end)
        }
        Err(end) => told_by_header(&header, end),
    }
}

/// Copies pieces through both states. Returns how it went, and what was written.
fn copied_by_states(
    rt: &impl Abort,
    alloc: Global,
    pieces: &[&[u8]],
    limits: Limits,
) -> Result<(Outcome, Vec<u8>), Fail> {
    let query = Query::all(alloc);
    let header = header_opened(alloc, &Reading::usual(limits, &query))?;
    let mut sink = WriteSink::new(Vec::new(alloc));
    let (told, _) = by_states(rt, header, pieces, &mut sink);
    Ok((told, sink.into_inner()))
}

/// Copies pieces through both states, and compares how it went.
fn check_pieces(
    rt: &impl Abort,
    alloc: Global,
    pieces: &[&[u8]],
    limits: Limits,
    wanted: &Wanted,
    at: u64,
) -> Result<(), Fail> {
    let (told, written) = copied_by_states(rt, alloc, pieces, limits)?;
    check_at(rt, told, wanted.outcome, wanted.name, at);
    check_bytes(rt, &written, wanted.written, wanted.name, at);
    Ok(())
}

/// Copies the stream cut in two at each place, and by single bytes.
fn check_states(
    rt: &impl Abort,
    alloc: Global,
    text: &[u8],
    limits: Limits,
    wanted: &Wanted,
) -> Result<(), Fail> {
    for at in 0..text.len() {
        let pieces = [&text[..at], &text[at..]];
        check_pieces(rt, alloc, &pieces, limits, wanted, at as u64)?;
    }
    let mut bytes = Vec::new(alloc);
    for byte in text.chunks(1) {
        bytes.push(byte)?;
    }
    check_pieces(rt, alloc, &bytes, limits, wanted, 1_000_000)
}

#[test]
fn a_header_and_a_feature_by_states(rt: HostRuntime) -> Result<(), Fail> {
    let wanted = Wanted {
        name: "header and feature",
        written: STREAM,
        outcome: outcome(2, 1, held(350, 65, 8), End::Complete),
    };
    check_states(&rt, rt.alloc(), STREAM, Limits::usual(), &wanted)
}

#[test]
fn a_refused_line_by_states(rt: HostRuntime) -> Result<(), Fail> {
    let wanted = Wanted {
        name: "after a refused line",
        written: STREAM,
        outcome: outcome(2, 1, held(350, 65, 8), refused(3, 144, Reason::VertexIndex)),
    };
    check_states(&rt, rt.alloc(), THIRD_REFUSED, Limits::usual(), &wanted)
}

#[test]
fn a_small_feature_and_a_greater_one_by_states(rt: HostRuntime) -> Result<(), Fail> {
    let text = joined(rt.alloc(), &[FIRST, SMALL, b"\n", FEATURE, b"\n"])?;
    let wanted = Wanted {
        name: "two features",
        written: &text,
        outcome: outcome(3, 2, held(350, 65, 8), End::Complete),
    };
    check_states(&rt, rt.alloc(), &text, Limits::usual(), &wanted)
}

#[test]
fn a_header_without_lf_by_states(rt: HostRuntime) -> Result<(), Fail> {
    let wanted = Wanted {
        name: "a header alone",
        written: HEADER,
        outcome: outcome(1, 0, held(140, 21, 3), End::Complete),
    };
    check_states(&rt, rt.alloc(), HEADER, Limits::usual(), &wanted)
}

#[test]
fn a_first_line_that_is_no_header_by_states(rt: HostRuntime) -> Result<(), Fail> {
    let text = joined(rt.alloc(), &[b"3\n", FEATURE])?;
    let wanted = Wanted {
        name: "no header",
        written: b"",
        outcome: outcome(0, 0, held(1, 1, 0), refused(1, 0, Reason::WrongKind)),
    };
    check_states(&rt, rt.alloc(), &text, Limits::usual(), &wanted)
}

#[test]
fn a_line_too_long_by_states(rt: HostRuntime) -> Result<(), Fail> {
    let text = joined(rt.alloc(), &[FIRST, FEATURE, b" \n"])?;
    let (told, written) = copied_by_states(&rt, rt.alloc(), &[&text], Limits::new(210, 64)?)?;
    let wanted = refused(2, 210, Reason::LineTooLong);
    check_at(&rt, told.ended, wanted, "too long", 0);
    check_bytes(&rt, &written, FIRST, "too long", 0);
    Ok(())
}

/// Compares the progress with a piece.
pub fn check_progress(
    rt: &impl Abort,
    got: Result<Progress, HeaderEnd>,
    used: usize,
    accepted: bool,
) {
    check_same(rt, got, Ok(Progress { used, accepted }));
}

/// Gives a header and an invalid line to the reader of a header, which uses 141 bytes. The rest
/// goes to the reader of lines. An engine takes nothing of the same piece.
#[test]
fn a_piece_whose_rest_is_refused(rt: HostRuntime) -> Result<(), Fail> {
    let text = joined(rt.alloc(), &[FIRST, b"{}\n"])?;
    let end = LineEnd::Refused {
        line: 2,
        place: 0,
        reason: Reason::MissingMember,
    };
    let header = [HeaderStep::Feed(&text, 141, true)];
    let lines = [
        LineStep::Feed(b"{}\n", Err(end)),
        LineStep::Counts(141, 1, 0),
    ];
    let _ = written_by_turns(&rt, rt.alloc(), &header, &lines)?;
    Ok(())
}

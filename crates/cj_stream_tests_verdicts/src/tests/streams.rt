//! Streams of many lines that look random, each compared with the plain program. They run with and
//! without going on after invalid lines. They are cut into single bytes, into reads of varying
//! lengths, and in two.
use super::calls::{check_at, check_bound, check_bytes, check_notes};
use super::plain::{Known, Plain, Verdict, Way, plainly};
use cj_budget::{Limits, Peaks};
use cj_spans::Reason;
use cj_stream::{End, Options, Outcome, Query, WriteSink};
use cj_stream_testkit::{
    BEYOND, CutReader, FEATURE, HEADER, NoteReports, Reading, SMALL, SlowReader, ran,
};
use std::alloc::Global;
use std::io::{Read, Result as IoResult};
use std::process::Abort;
use std::test::Fail;

// ---- the lines

/// Returns a line that is invalid at its start, with any number.
const fn refused_at_first(content: &[u8], reason: Reason, tokens: u64, depth: u64) -> Known<'_> {
    Known {
        content,
        first: Verdict::Refused(0, reason),
        later: Verdict::Refused(0, reason),
        tokens,
        depth,
    }
}

/// Returns a line that is no JSON text, with any number.
const fn illegible(content: &[u8], place: u64, reason: Reason) -> Known<'_> {
    Known {
        content,
        first: Verdict::Illegible(place, reason),
        later: Verdict::Illegible(place, reason),
        tokens: 0,
        depth: 0,
    }
}

/// Returns a line that is blank if it is not the first.
const fn blank(content: &[u8]) -> Known<'_> {
    Known {
        content,
        first: Verdict::Illegible(content.len() as u64, Reason::Syntax),
        later: Verdict::Blank,
        tokens: 0,
        depth: 0,
    }
}

/// Returns a line that is no header, since it has no version.
const fn no_header<'a>(
    content: &'a [u8],
    later: Verdict<'a>,
    tokens: u64,
    depth: u64,
) -> Known<'a> {
    Known {
        content,
        first: Verdict::Refused(0, Reason::MissingMember),
        later,
        tokens,
        depth,
    }
}

/// The feature with two spaces after it, so that it has 212 bytes.
const TRAILED: &[u8] =
    b"{\"type\":\"CityJSONFeature\",\"id\":\"b1\",\"CityObjects\":{\"b1\":{\"type\":\"Building\",\"geometry\":[{\"type\":\"MultiSurface\",\"lod\":\"2.2\",\"boundaries\":[[[0,1,2,3]]]}]}},\"vertices\":[[0,0,0],[1000,0,0],[1000,1000,0],[0,1000,0]]}  ";

/// The small feature with an id of none of its city objects.
const STRANGE: &[u8] =
    b"{\"type\":\"CityJSONFeature\",\"id\":\"b\",\"CityObjects\":{\"c\":{\"type\":\"Building\"}},\"vertices\":[]}";

/// The small feature with an attribute that is not UTF-8, at byte 92.
const NO_TEXT: &[u8] =
    b"{\"type\":\"CityJSONFeature\",\"id\":\"b\",\"CityObjects\":{\"b\":{\"type\":\"Building\",\"attributes\":{\"a\":\"\xff\"}}},\"vertices\":[]}";

/// More spaces than the feature has bytes.
const SPACES: [u8; 215] = [b' '; 215];

/// Returns the line with this number in the table. The first is the header, and after the last
/// there are only features.
fn line_at(number: u64) -> Known<'static> {
    match number {
        0 => no_second(HEADER),
        1 => illegible(NO_TEXT, 92, Reason::NotUtf8),
        2 => no_header(SMALL, Verdict::Feature("b"), 13, 3),
        3 => no_header(TRAILED, Verdict::Feature("b1"), 44, 8),
        4 => no_header(BEYOND, Verdict::Refused(144, Reason::VertexIndex), 44, 8),
        5 => no_header(STRANGE, Verdict::Refused(31, Reason::IdNotFound), 13, 3),
        6 => refused_at_first(b"{}", Reason::MissingMember, 1, 1),
        7 => refused_at_first(b"3", Reason::WrongKind, 1, 0),
        8 => refused_at_first(b"[[],\"\"]", Reason::WrongKind, 3, 2),
        9 => blank(b""),
        10 => blank(b" \t\r "),
        11 => blank(&SPACES),
        12 => illegible(b"{\"type\":\"CityJSONFeature\",}", 26, Reason::Syntax),
        13 => illegible(b"tru", 3, Reason::Syntax),
        14 => illegible(b"[[[[[[[[[", 8, Reason::TooDeep),
        15 => illegible(b"3\xe2\x82", 1, Reason::NotUtf8),
        _ => no_header(FEATURE, Verdict::Feature("b1"), 44, 8),
    }
}

/// How many lines the table has.
const LINES: u64 = 17;

/// Returns the header. As a later line it has no `CityObjects` with the id of a feature.
fn no_second(content: &'static [u8]) -> Known<'static> {
    Known {
        content,
        first: Verdict::Header,
        later: Verdict::Refused(0, Reason::MissingMember),
        tokens: 21,
        depth: 3,
    }
}

fn table(alloc: Global) -> Result<Vec<Known<'static>>, Fail> {
    let mut table = Vec::new(alloc);
    for number in 0..LINES {
        table.push(line_at(number))?;
    }
    Ok(table)
}

// ---- numbers that look random

/// Numbers that look random, each made from the one before it.
#[derive(Clone, Copy)]
struct Numbers {
    state: u64,
}

impl Numbers {
    /// Returns the next one, below this.
    fn next(&mut self, below: u64) -> u64 {
        let product = self.state.wrapping_mul(6_364_136_223_846_793_005);
        self.state = product.wrapping_add(1_442_695_040_888_963_407);
        (self.state >> 33) % below.max(1)
    }
}

/// Gives its bytes by reads of lengths that look random.
#[derive(Drop)]
struct RaggedReader<'a> {
    bytes: &'a [u8],
    numbers: Numbers,
    most: u64,
}

impl Read for RaggedReader<'_> {
    fn read(&mut self, buf: &mut [u8]) -> IoResult<usize> {
        let step = self.numbers.next(self.most).saturating_add(1) as usize;
        let n = step.min(self.bytes.len()).min(buf.len());
        let bytes = self.bytes;
        buf[..n].copy_from_slice(&bytes[..n]);
        self.bytes = &bytes[n..];
        Ok(n)
    }
}

/// Adds a line and its LF. The first is the header in seven of eight texts.
fn add_line(numbers: &mut Numbers, at: u64, text: &mut Vec<u8>) -> Result<(), Fail> {
    let number = numbers.next(LINES + 6);
    let is_header = at == 0 && numbers.next(8) > 0;
    let known = line_at(if is_header { 0 } else { number });
    text.extend_from_slice(known.content)?;
    text.push(b'\n')?;
    Ok(())
}

/// Returns a text of up to this number of lines. One text in three lacks the last LF.
fn text_of(alloc: Global, numbers: &mut Numbers, most: u64) -> Result<Vec<u8>, Fail> {
    let mut text = Vec::new(alloc);
    for at in 0..numbers.next(most.saturating_add(1)) {
        add_line(numbers, at, &mut text)?;
    }
    if numbers.next(3) == 0 {
        let _ = text.pop();
    }
    Ok(text)
}

/// Returns a line limit at one of the edges. They are below the header's length and at it, at the
/// feature's length and next to it, and above all.
fn limit_of(numbers: &mut Numbers) -> usize {
    match numbers.next(12) {
        0 => 139,
        1 => 140,
        2 | 3 => 209,
        4 | 5 => 210,
        6 => 211,
        7 | 8 => 212,
        9 => 214,
        _ => 1_000,
    }
}

/// Returns a way to read that does not go on.
fn way_of(numbers: &mut Numbers) -> Way<'static> {
    Way {
        line_limit: limit_of(numbers),
        keeps_going: false,
        id: if numbers.next(3) == 0 {
            Some("b1")
        } else {
            None
        },
    }
}

// ---- compared with the plain program

/// A text, how it is read, and its expected result.
#[derive(Clone, Copy)]
struct Case<'a> {
    text: &'a [u8],
    way: &'a Way<'a>,
    plain: &'a Plain,
    stream: u64,
}

/// Returns the expected peaks. Those of a complete stream are exact. But a line that is no JSON
/// text may have added tokens and open containers before that was seen. The peaks of another stream
/// are not compared.
fn peaks_of(plain: &Plain, got: Peaks) -> Peaks {
    let least = plain.outcome.peaks;
    match plain.outcome.ended {
        End::Complete if plain.legible => least,
        End::Complete => Peaks {
            bytes: least.bytes,
            tokens: got.tokens.max(least.tokens),
            depth: got.depth.max(least.depth),
        },
        _ => got,
    }
}

fn query_of(alloc: Global, way: &Way) -> Result<Query, Fail> {
    let mut query = Query::all(alloc);
    if let Some(id) = way.id {
        query.add_id(id)?;
    }
    Ok(query)
}

/// Runs over a text that a reader gives.
fn check_read<R: Read>(
    rt: &impl Abort,
    alloc: Global,
    case: &Case,
    reader: &mut R,
    at: u64,
) -> Result<(), Fail> {
    let limits = Limits::new(case.way.line_limit as u64, 8)?;
    let query = query_of(alloc, case.way)?;
    let reading = Reading {
        limits,
        query: &query,
        options: Options::new().keep_going(case.way.keeps_going),
    };
    let mut sink = WriteSink::new(Vec::new(alloc));
    let mut reports = NoteReports::new(alloc);
    let got = ran(alloc, reader, &mut sink, &mut reports, &reading);
    check_bound(rt, case.text, limits, got.peaks);
    check_came(rt, case, got, &reports, &sink.into_inner(), at);
    Ok(())
}

/// Compares the result of a text with the expected one.
fn check_came(
    rt: &impl Abort,
    case: &Case,
    got: Outcome,
    reports: &NoteReports,
    written: &[u8],
    at: u64,
) {
    let row = if case.way.keeps_going {
        "going on"
    } else {
        "usual"
    };
    let wanted = Outcome {
        peaks: peaks_of(case.plain, got.peaks),
        ..case.plain.outcome
    };
    check_at(rt, got, wanted, row, case.stream);
    check_notes(rt, reports, case.plain.reports.as_bytes(), row, case.stream);
    check_bytes(rt, written, &case.plain.written, row, at);
}

/// Gives a text by single bytes, and by reads of lengths that look random.
fn check_reads(rt: &impl Abort, alloc: Global, case: &Case) -> Result<(), Fail> {
    check_read(rt, alloc, case, &mut SlowReader::new(case.text, 1), 1)?;
    for most in [3, 20, 100, 400, 10_000] {
        let mut reader = RaggedReader {
            bytes: case.text,
            numbers: Numbers { state: case.stream },
            most,
        };
        check_read(rt, alloc, case, &mut reader, most)?;
    }
    Ok(())
}

/// Gives a text cut in two at each place.
fn check_cuts(rt: &impl Abort, alloc: Global, case: &Case) -> Result<(), Fail> {
    for at in 0..=case.text.len() {
        let mut reader = CutReader {
            front: &case.text[..at],
            back: &case.text[at..],
        };
        check_read(rt, alloc, case, &mut reader, at as u64)?;
    }
    Ok(())
}

/// Checks a text that is read in one way.
fn check_way(
    rt: &impl Abort,
    alloc: Global,
    text: &[u8],
    way: &Way,
    stream: u64,
    by_cuts: bool,
) -> Result<(), Fail> {
    let plain = plainly(rt, alloc, &table(alloc)?, text, way)?;
    let case = Case {
        text,
        way,
        plain: &plain,
        stream,
    };
    if by_cuts {
        return check_cuts(rt, alloc, &case);
    }
    check_reads(rt, alloc, &case)
}

/// Checks a stream of up to this number of lines, without going on and with it.
fn check_stream(
    rt: &impl Abort,
    alloc: Global,
    numbers: &mut Numbers,
    most: u64,
    stream: u64,
    by_cuts: bool,
) -> Result<(), Fail> {
    let way = way_of(numbers);
    let text = text_of(alloc, numbers, most)?;
    check_way(rt, alloc, &text, &way, stream, by_cuts)?;
    let going = Way {
        keeps_going: true,
        ..way
    };
    check_way(rt, alloc, &text, &going, stream, by_cuts)
}

#[test]
fn many_streams(rt: HostRuntime) -> Result<(), Fail> {
    let mut numbers = Numbers { state: 1 };
    for stream in 0..200 {
        check_stream(&rt, rt.alloc(), &mut numbers, 12, stream, false)?;
    }
    Ok(())
}

#[test]
fn long_streams(rt: HostRuntime) -> Result<(), Fail> {
    let mut numbers = Numbers { state: 2 };
    for stream in 0..10 {
        check_stream(&rt, rt.alloc(), &mut numbers, 400, stream, false)?;
    }
    Ok(())
}

#[test]
fn streams_cut_in_two_at_every_place(rt: HostRuntime) -> Result<(), Fail> {
    let mut numbers = Numbers { state: 393 };
    for stream in 0..12 {
        check_stream(&rt, rt.alloc(), &mut numbers, 6, stream, true)?;
    }
    Ok(())
}

//! Streams with invalid lines that reading goes on after, with every cut.
use super::cuts::{Kind, Row, check, check_with};
use super::line_pieces::check_rest;
use cj_budget::Peaks;
use cj_spans::Reason;
use cj_stream::Query;
use cj_stream_testkit::{
    BEYOND, FEATURE, FIRST, HEADER, SMALL, STREAM, attributed, complete, held, outcome, refused,
};
use std::alloc::Global;
use std::process::Abort;
use std::test::Fail;

// ---- rows

#[test]
fn after_a_finding(rt: HostRuntime) -> Result<(), Fail> {
    let row = Row {
        name: "after a finding",
        text: &[STREAM, BEYOND, b"\n", FEATURE, b"\n"],
        line_limit: 1_000,
        goes_on: true,
        written: &[STREAM, FEATURE, b"\n"],
        reports: "3 144 25\n",
        outcome: complete(4, 2, 1, held(350, 65, 8)),
    };
    check(&rt, rt.alloc(), &row)
}

#[test]
fn after_a_line_one_byte_too_long(rt: HostRuntime) -> Result<(), Fail> {
    let row = Row {
        name: "after a line one byte too long",
        text: &[STREAM, FEATURE, b" \n", FEATURE, b"\n"],
        line_limit: 210,
        goes_on: true,
        written: &[STREAM, FEATURE, b"\n"],
        reports: "3 210 2\n",
        outcome: complete(4, 2, 1, held(350, 65, 8)),
    };
    check(&rt, rt.alloc(), &row)
}

#[test]
fn a_first_line_of_an_older_version(rt: HostRuntime) -> Result<(), Fail> {
    let row = Row {
        name: "an older version",
        text: &[&HEADER[..29], b"\"1.1\"", &HEADER[34..], b"\n", FEATURE],
        line_limit: 1_000,
        goes_on: true,
        written: &[],
        reports: "",
        outcome: outcome(0, 0, held(140, 21, 3), refused(1, 29, Reason::WrongVersion)),
    };
    check(&rt, rt.alloc(), &row)
}

/// A stream of which only the header is kept, in parts, with the expected reports, numbers of lines
/// and of invalid lines, and peaks. The line limit is 210.
#[derive(Clone, Copy)]
struct Refused<'a> {
    text: &'a [&'a [u8]],
    reports: &'a str,
    lines: u64,
    refused: u64,
    peaks: Peaks,
}

/// Checks a stream in every way, if only its header is kept.
fn check_refused(rt: &impl Abort, alloc: Global, stream: &Refused) -> Result<(), Fail> {
    let row = Row {
        name: stream.reports,
        text: stream.text,
        line_limit: 210,
        goes_on: true,
        written: &[FIRST],
        reports: stream.reports,
        outcome: complete(stream.lines, 0, stream.refused, stream.peaks),
    };
    check(rt, alloc, &row)
}

/// Checks one stream after another.
fn check_each(rt: &impl Abort, alloc: Global, streams: &[Refused]) -> Result<(), Fail> {
    for stream in streams {
        check_refused(rt, alloc, stream)?;
    }
    Ok(())
}

/// Five bytes more than the line limit of 210: all blank, and all a letter that begins no JSON
/// text.
const SPACES: [u8; 215] = [b' '; 215];

const LETTERS: [u8; 215] = [b'x'; 215];

/// As many spaces as the line limit, and one more.
const AT_MOST: [u8; 210] = [b' '; 210];

const ONE_MORE: [u8; 211] = [b' '; 211];

/// The peaks of a header and of a line without tokens that has at least 210 bytes.
const FULL: Peaks = Peaks {
    bytes: 350,
    tokens: 21,
    depth: 3,
};

/// Returns a stream whose second line is too long, and is the last one.
fn too_long<'a>(text: &'a [&'a [u8]]) -> Refused<'a> {
    Refused {
        text,
        reports: "2 210 2\n",
        lines: 2,
        refused: 1,
        peaks: FULL,
    }
}

/// The bytes of the line that fit are held at most, in addition to the header.
#[test]
fn a_line_five_bytes_too_long(rt: HostRuntime) -> Result<(), Fail> {
    let streams = [
        too_long(&[FIRST, FEATURE, b"     ", b"\n"]),
        too_long(&[FIRST, FEATURE, b"     "]),
        too_long(&[FIRST, &LETTERS, b"\n"]),
        too_long(&[FIRST, &LETTERS]),
    ];
    check_each(&rt, rt.alloc(), &streams)
}

#[test]
fn a_blank_line_too_long(rt: HostRuntime) -> Result<(), Fail> {
    let streams = [
        too_long(&[FIRST, &SPACES, b"\n"]),
        too_long(&[FIRST, &SPACES]),
        Refused {
            lines: 3,
            ..too_long(&[FIRST, &ONE_MORE, b"\n\n"])
        },
    ];
    check_each(&rt, rt.alloc(), &streams)
}

#[test]
fn a_blank_line_that_is_not_too_long(rt: HostRuntime) -> Result<(), Fail> {
    let stream = Refused {
        text: &[FIRST, &AT_MOST, b"\n\n"],
        reports: "",
        lines: 3,
        refused: 0,
        peaks: FULL,
    };
    check_refused(&rt, rt.alloc(), &stream)
}

/// Streams with two lines that are too long.
const TWO_TOO_LONG: [Refused; 3] = [
    Refused {
        text: &[FIRST, &LETTERS, b"\n", &SPACES, b"\n"],
        reports: "2 210 2\n3 210 2\n",
        lines: 3,
        refused: 2,
        peaks: FULL,
    },
    Refused {
        text: &[FIRST, &LETTERS, b"\n", &SPACES],
        reports: "2 210 2\n3 210 2\n",
        lines: 3,
        refused: 2,
        peaks: FULL,
    },
    Refused {
        text: &[FIRST, &LETTERS, b"\n\n", &LETTERS, b"\n \n{}\n"],
        reports: "2 210 2\n4 210 2\n6 0 10\n",
        lines: 6,
        refused: 3,
        peaks: Peaks {
            bytes: 350,
            tokens: 22,
            depth: 3,
        },
    },
];

#[test]
fn two_lines_too_long_in_a_row(rt: HostRuntime) -> Result<(), Fail> {
    check_each(&rt, rt.alloc(), &TWO_TOO_LONG)
}

/// The rest of a line that is too long is no line of its own. That is also true if it would be a
/// valid or an invalid line.
#[test]
fn the_rest_of_a_line_too_long(rt: HostRuntime) -> Result<(), Fail> {
    let streams = [
        too_long(&[FIRST, &AT_MOST, SMALL, b"\n"]),
        too_long(&[FIRST, &AT_MOST, b"{}\n"]),
    ];
    check_each(&rt, rt.alloc(), &streams)
}

/// A line that is not UTF-8 has no tokens, even if it would be a JSON text with more of them than
/// the header. A line that is too long has none either.
#[test]
fn lines_that_are_not_looked_at(rt: HostRuntime) -> Result<(), Fail> {
    let end = b"3]]]}]}},\"a\":\"\xff\",\"vertices\":[[0,0,0]]}\n";
    let [front, name, value, close, back] = attributed(b"a");
    let not_text = [FIRST, &FEATURE[..141], end];
    let long = [FIRST, front, name, value, close, back, b"\n"];
    let streams = [
        Refused {
            reports: "2 155 3\n",
            peaks: held(319, 21, 3),
            ..too_long(&not_text)
        },
        too_long(&long),
    ];
    check_each(&rt, rt.alloc(), &streams)
}

#[test]
fn blank_lines_are_not_reported(rt: HostRuntime) -> Result<(), Fail> {
    let stream = Refused {
        text: &[FIRST, b"\n \t\r\n3\n\n\n[]\n "],
        reports: "4 0 12\n7 0 12\n",
        lines: 8,
        refused: 2,
        peaks: held(143, 22, 3),
    };
    check_refused(&rt, rt.alloc(), &stream)
}

/// A header as a later line is invalid too, and has the most tokens of these lines.
#[test]
fn every_second_line_is_refused(rt: HostRuntime) -> Result<(), Fail> {
    let row = Row {
        name: "every second line",
        text: &[STREAM, BEYOND, b"\n", SMALL, b"\n", FIRST, FEATURE, b"\n{}"],
        line_limit: 1_000,
        goes_on: true,
        written: &[STREAM, SMALL, b"\n", FEATURE, b"\n"],
        reports: "3 144 25\n5 0 10\n7 0 10\n",
        outcome: complete(7, 3, 3, held(350, 65, 8)),
    };
    check(&rt, rt.alloc(), &row)
}

/// A line that is no JSON text may have added tokens and open containers before that was seen. They
/// are fewer than the feature has.
#[test]
fn lines_that_are_no_json(rt: HostRuntime) -> Result<(), Fail> {
    let row = Row {
        name: "no JSON",
        text: &[
            FIRST,
            b"{\"type\":\"CityJSONFeature\",}\n",
            FEATURE,
            b"\ntru\n}\xff\n",
            FEATURE,
        ],
        line_limit: 1_000,
        goes_on: true,
        written: &[STREAM, FEATURE],
        reports: "2 26 4\n4 3 4\n5 1 3\n",
        outcome: complete(6, 2, 3, held(350, 65, 8)),
    };
    check(&rt, rt.alloc(), &row)
}

// ---- any query

/// Checks a row, with a query for the small feature.
fn check_asked(rt: &impl Abort, alloc: Global, row: &Row) -> Result<(), Fail> {
    let mut query = Query::all(alloc);
    query.add_id("b")?;
    check_with(rt, alloc, row, &query, Kind::Query)
}

/// An invalid line is reported for any query. A feature that the query does not select is not.
#[test]
fn refused_lines_of_any_query(rt: HostRuntime) -> Result<(), Fail> {
    let row = Row {
        name: "asked for",
        text: &[FIRST, b"{}\n", FEATURE, b"\n", SMALL, b"\n3\n"],
        line_limit: 1_000,
        goes_on: true,
        written: &[FIRST, SMALL, b"\n"],
        reports: "2 0 10\n5 0 12\n",
        outcome: complete(5, 1, 2, held(350, 65, 8)),
    };
    check_asked(&rt, rt.alloc(), &row)
}

// ---- after a header

#[test]
fn refused_lines_behind_a_header(rt: HostRuntime) -> Result<(), Fail> {
    let row = Row {
        name: "behind a header",
        text: &[FEATURE, b" \n", FEATURE, b"\n", BEYOND],
        line_limit: 210,
        goes_on: true,
        written: &[STREAM],
        reports: "2 210 2\n4 144 25\n",
        outcome: complete(4, 1, 2, held(350, 65, 8)),
    };
    check_rest(&rt, rt.alloc(), &row)
}

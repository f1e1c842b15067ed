//! Rows of scans and reasons. Expected places and counts are worked out by hand from the grammar.
ghost use Rattle.std.specs.Prelude.{◌≤◌, length};
ghost use Rattle.cj_spans.specs.Sound.{AreOf};

use super::checks::{check_named, check_same};
use super::tokens_of;
use cj_budget::{Bounded, Stack};
use cj_spans::{Doc, Node, Reason, ScanFault, Token, scan, scan_reserved, slow_next};
use std::alloc::Global;
use std::process::Abort;

/// The number of tokens and the peak of open containers, or the fault.
type Answer = Result<(usize, usize), ScanFault>;

/// A line and the depth limit, with the answer.
#[derive(Clone, Copy, Drop)]
struct Row<'a> {
    name: &'a str,
    line: &'a [u8],
    depth: usize,
    want: Answer,
}

/// A line with the answer at the usual depth limit.
type LineRow = (&'static [u8], Answer);

/// The name of a row, the depth limit and a line, with the answer.
type DepthRow = (&'static str, usize, &'static [u8], Answer);

/// A header of 140 bytes.
const HEADER: &[u8] =
    b"{\"type\":\"CityJSON\",\"version\":\"2.0\",\"transform\":{\"scale\":[0.001,0.001,0.001],\"translate\":[1000.0,2000.0,0.0]},\"CityObjects\":{},\"vertices\":[]}";

/// A feature of 210 bytes.
const FEATURE: &[u8] =
    b"{\"type\":\"CityJSONFeature\",\"id\":\"b1\",\"CityObjects\":{\"b1\":{\"type\":\"Building\",\"geometry\":[{\"type\":\"MultiSurface\",\"lod\":\"2.2\",\"boundaries\":[[[0,1,2,3]]]}]}},\"vertices\":[[0,0,0],[1000,0,0],[1000,1000,0],[0,1000,0]]}";

/// A feature of 89 bytes.
const SMALL: &[u8] =
    b"{\"type\":\"CityJSONFeature\",\"id\":\"b\",\"CityObjects\":{\"b\":{\"type\":\"Building\"}},\"vertices\":[]}";

/// Reserves the memory of two lists.
fn reserve(rt: &impl Abort, tokens: &mut Bounded<Token>, stack: &mut Stack) {
    check_same(rt, tokens.reserve_all(), Ok(()));
    check_same(rt, stack.reserve_all(), Ok(()));
}

/// Scans a line into lists with reserved memory.
fn answer_reserved(
    rt: &impl Abort,
    line: &[u8],
    tokens: &mut Bounded<Token>,
    stack: &mut Stack,
) -> Answer {
    assert!(rt; line.len() <= 100_000 && stack.limit() <= 2_000);
    assert!(rt; (line.len() + stack.limit() + 1) / 2 <= tokens.limit());
    assert!(rt; tokens.is_reserved() && stack.is_reserved());
    match scan_reserved(line, tokens, stack) {
        Ok(()) => Ok((tokens.len(), stack.peak())),
        Err(fault) => Err(ScanFault::from(fault)),
    }
}

/// Scans a line into lists.
fn answer(rt: &impl Abort, line: &[u8], tokens: &mut Bounded<Token>, stack: &mut Stack) -> Answer {
    assert!(rt; line.len() <= 100_000 && stack.limit() <= 2_000);
    assert!(rt; (line.len() + stack.limit() + 1) / 2 <= tokens.limit());
    match scan(line, tokens, stack) {
        Ok(()) => Ok((tokens.len(), stack.peak())),
        Err(fault) => Err(fault),
    }
}

fn is_answer(rt: &impl Abort, got: Answer, want: Answer) {
    check_same(rt, got, want);
}

/// Scans a line into lists, and compares the result.
fn answers(
    rt: &impl Abort,
    line: &[u8],
    tokens: &mut Bounded<Token>,
    stack: &mut Stack,
    want: Answer,
) {
    let got = answer(rt, line, tokens, stack);
    is_answer(rt, got, want);
}

/// Scans a line into lists with reserved memory, and compares the result.
fn answers_reserved(
    rt: &impl Abort,
    line: &[u8],
    tokens: &mut Bounded<Token>,
    stack: &mut Stack,
    want: Answer,
) {
    let got = answer_reserved(rt, line, tokens, stack);
    is_answer(rt, got, want);
}

fn is_wanted(rt: &impl Abort, got: Answer, row: &Row) {
    check_named(rt, got, row.want, row.name);
}

/// Checks lists after a scan. If the line was a text, no container is open. The tokens are at their
/// peak.
fn are_left(rt: &impl Abort, is_text: bool, tokens: &Bounded<Token>, stack: &Stack) {
    let is_closed = !is_text || stack.is_empty();
    assert!(rt; is_closed && tokens.peak() == tokens.len());
}

/// Scans the line of a row into lists, and compares the result, the tokens and the peaks.
fn meets_grown(rt: &impl Abort, row: &Row, tokens: &mut Bounded<Token>, stack: &mut Stack) {
    let got = answer(rt, row.line, tokens, stack);
    is_wanted(rt, got, row);
    are_left(rt, got.is_ok(), tokens, stack);
}

/// Reserves the memory of two lists, scans the line of a row into them, and compares the result.
fn meets_reserved(rt: &impl Abort, row: &Row, tokens: &mut Bounded<Token>, stack: &mut Stack) {
    reserve(rt, tokens, stack);
    let got = answer_reserved(rt, row.line, tokens, stack);
    is_wanted(rt, got, row);
}

/// Returns the number of tokens that a scan of a line needs room for.
fn room(line: &[u8], depth: usize) -> usize {
    line.len().saturating_add(depth).saturating_add(1) / 2
}

/// Scans the line of a row into fresh lists, with reserved memory or without.
fn meets_in_fresh_lists(rt: &impl Abort, alloc: Global, row: &Row, is_reserved: bool) {
    let mut tokens: Bounded<Token> = Bounded::new(alloc, room(row.line, row.depth));
    let mut stack = Stack::new(alloc, row.depth);
    if is_reserved {
        meets_reserved(rt, row, &mut tokens, &mut stack);
    } else {
        meets_grown(rt, row, &mut tokens, &mut stack);
    }
}

fn meets(rt: &impl Abort, alloc: Global, row: &Row) {
    meets_in_fresh_lists(rt, alloc, row, false);
    meets_in_fresh_lists(rt, alloc, row, true);
}

/// Checks that each line has its answer at the usual depth limit.
fn all_meet(rt: &impl Abort, alloc: Global, name: &str, rows: &[LineRow]) {
    for (line, want) in rows {
        let row = Row {
            name,
            line: *line,
            depth: 64,
            want: *want,
        };
        meets(rt, alloc, &row);
    }
}

/// Checks that each line has its answer at its depth limit.
fn all_meet_at_depths(rt: &impl Abort, alloc: Global, rows: &[DepthRow]) {
    for (name, depth, line, want) in rows {
        let row = Row {
            name: *name,
            line: *line,
            depth: *depth,
            want: *want,
        };
        meets(rt, alloc, &row);
    }
}

const TEXTS: [LineRow; 14] = [
    (b"{\"a\":{\"b\":[]},\"c\":0}", Ok((7, 3))),
    (b"[[],{},[1]]", Ok((5, 2))),
    (b"[1,2]", Ok((3, 1))),
    (HEADER, Ok((21, 3))),
    (FEATURE, Ok((44, 8))),
    (SMALL, Ok((13, 3))),
    (b" \t\r\n7 \r", Ok((1, 0))),
    (b"-0.5e+10", Ok((1, 0))),
    (b"[0,-0,10,1.25,1e5,1E-05,-1.0e+0]", Ok((8, 1))),
    (b"[-1,-0,[-10],-2.5,-3]", Ok((7, 2))),
    (b"[null,true,false]", Ok((4, 1))),
    (
        b"\"\\\"\\\\\\/\\b\\f\\n\\r\\t\\u00e9\\uD83D\\uDE00\"",
        Ok((1, 0)),
    ),
    (b"\"\xE2\x82\xAC\"", Ok((1, 0))),
    (b"{ \"\" : { } , \"a\" : [ ] }", Ok((5, 2))),
];

#[test]
fn lines_that_are_texts(rt: HostRuntime) {
    all_meet(&rt, rt.alloc(), "lines that are texts", TEXTS.as_slice());
}

const NO_NUMBERS: [LineRow; 13] = [
    (b"01", Err(ScanFault::Syntax(1))),
    (b"-", Err(ScanFault::Syntax(1))),
    (b"1.", Err(ScanFault::Syntax(2))),
    (b"1.e1", Err(ScanFault::Syntax(2))),
    (b"+1", Err(ScanFault::Syntax(0))),
    (b".5", Err(ScanFault::Syntax(0))),
    (b"1e", Err(ScanFault::Syntax(2))),
    (b"1e+", Err(ScanFault::Syntax(3))),
    (b"[-1,-0,-01]", Err(ScanFault::Syntax(9))),
    (b"[-]", Err(ScanFault::Syntax(2))),
    (b"[1,-]", Err(ScanFault::Syntax(4))),
    (b"[1,--2]", Err(ScanFault::Syntax(4))),
    (b"[1,-", Err(ScanFault::Syntax(4))),
];

#[test]
fn numbers_that_are_none(rt: HostRuntime) {
    all_meet(
        &rt,
        rt.alloc(),
        "numbers that are none",
        NO_NUMBERS.as_slice(),
    );
}

const NO_TEXTS_OR_WORDS: [LineRow; 11] = [
    (b"\"\\q\"", Err(ScanFault::Syntax(2))),
    (b"\"\\v\"", Err(ScanFault::Syntax(2))),
    (b"\"\\0\"", Err(ScanFault::Syntax(2))),
    (b"\"\\x41\"", Err(ScanFault::Syntax(2))),
    (b"\"\\'\"", Err(ScanFault::Syntax(2))),
    (b"tru}", Err(ScanFault::Syntax(3))),
    (b"nulL", Err(ScanFault::Syntax(3))),
    (b"\"a", Err(ScanFault::Syntax(2))),
    (b"\"\x1F\"", Err(ScanFault::Syntax(1))),
    (b"\"\\u12g4\"", Err(ScanFault::Syntax(5))),
    (b"\"\\u123\"", Err(ScanFault::Syntax(6))),
];

#[test]
fn texts_and_words_that_are_none(rt: HostRuntime) {
    all_meet(
        &rt,
        rt.alloc(),
        "texts and words that are none",
        NO_TEXTS_OR_WORDS.as_slice(),
    );
}

const NAMES_AND_COLONS: [LineRow; 9] = [
    (b"{\"a\" :1,\"b\": 2,\"c\":\"d\"}", Ok((7, 1))),
    (b"[\"\",\"a\\\"b\",\"\\\\\"]", Ok((4, 1))),
    (b"{\"a\":}", Err(ScanFault::Syntax(5))),
    (b"{\"a\"::1}", Err(ScanFault::Syntax(5))),
    (b"{\"a\":", Err(ScanFault::Syntax(5))),
    (b"{\"a\"", Err(ScanFault::Syntax(4))),
    (b"{\"a\":1:2}", Err(ScanFault::Syntax(6))),
    (b"[\"a\":1]", Err(ScanFault::Syntax(4))),
    (b"\"a\":1", Err(ScanFault::Syntax(3))),
];

#[test]
fn names_and_their_colons(rt: HostRuntime) {
    all_meet(
        &rt,
        rt.alloc(),
        "names and their colons",
        NAMES_AND_COLONS.as_slice(),
    );
}

const NO_TEXTS: [LineRow; 19] = [
    (b"", Err(ScanFault::Syntax(0))),
    (b"\r", Err(ScanFault::Syntax(1))),
    (b"[1,]", Err(ScanFault::Syntax(3))),
    (b"{} x", Err(ScanFault::Syntax(3))),
    (b"[1", Err(ScanFault::Syntax(2))),
    (b"[1,2", Err(ScanFault::Syntax(4))),
    (
        b"{\"type\":\"CityJSONFeature\",}",
        Err(ScanFault::Syntax(26)),
    ),
    (b"\xEF\xBB\xBF{}", Err(ScanFault::Syntax(0))),
    (b"\x1E{}", Err(ScanFault::Syntax(0))),
    (b"[1 2]", Err(ScanFault::Syntax(3))),
    (b"[,1]", Err(ScanFault::Syntax(1))),
    (b"{\"a\" 1}", Err(ScanFault::Syntax(5))),
    (b"{\"a\":}", Err(ScanFault::Syntax(5))),
    (b"{a:1}", Err(ScanFault::Syntax(1))),
    (b"{\"a\":1]", Err(ScanFault::Syntax(6))),
    (b"[1}", Err(ScanFault::Syntax(2))),
    (b"}", Err(ScanFault::Syntax(0))),
    (b"[]]", Err(ScanFault::Syntax(2))),
    (b"\"a\"\"b\"", Err(ScanFault::Syntax(3))),
];

#[test]
fn lines_that_are_no_texts(rt: HostRuntime) {
    all_meet(
        &rt,
        rt.alloc(),
        "lines that are no texts",
        NO_TEXTS.as_slice(),
    );
}

const NO_UTF8: [LineRow; 4] = [
    (b"}\xFF", Err(ScanFault::NotUtf8(1))),
    (b"\"\xE2\x82\"", Err(ScanFault::NotUtf8(1))),
    (b"\"a\xE2\x82", Err(ScanFault::NotUtf8(2))),
    (b"\x80", Err(ScanFault::NotUtf8(0))),
];

#[test]
fn lines_that_are_no_utf8(rt: HostRuntime) {
    all_meet(
        &rt,
        rt.alloc(),
        "lines that are no utf8",
        NO_UTF8.as_slice(),
    );
}

const DEEP_AS_ALLOWED: [DepthRow; 3] = [
    ("as deep as allowed", 3, b"[{\"a\":[]}]", Ok((4, 3))),
    ("opened and closed again", 2, b"[[],[],[]]", Ok((4, 2))),
    (
        "a fault before the place that is too deep",
        1,
        b"[}[",
        Err(ScanFault::Syntax(1)),
    ),
];

#[test]
fn lines_that_are_as_deep_as_allowed(rt: HostRuntime) {
    all_meet_at_depths(&rt, rt.alloc(), DEEP_AS_ALLOWED.as_slice());
}

const TOO_DEEP: [DepthRow; 4] = [
    (
        "a fault after the place that is too deep",
        1,
        b"[[}",
        Err(ScanFault::TooDeep(1)),
    ),
    (
        "no container is allowed",
        0,
        b" {",
        Err(ScanFault::TooDeep(1)),
    ),
    (
        "one too deep",
        2,
        b"[{\"a\":[]}]",
        Err(ScanFault::TooDeep(6)),
    ),
    (
        "not UTF-8 after the place that is too deep",
        1,
        b"[[\xFF",
        Err(ScanFault::NotUtf8(2)),
    ),
];

#[test]
fn lines_that_are_too_deep(rt: HostRuntime) {
    all_meet_at_depths(&rt, rt.alloc(), TOO_DEEP.as_slice());
}

const ARRAYS: [DepthRow; 8] = [
    (
        "arrays in arrays, in an object",
        4,
        b"{\"a\":[[1,-2],[[3]]],\"b\":0}",
        Ok((11, 4)),
    ),
    ("white space behind an array", 2, b"[[1] ,[2]]", Ok((5, 2))),
    (
        "an array closed as an object",
        2,
        b"[[1}]",
        Err(ScanFault::Syntax(3)),
    ),
    (
        "an object closed as an array",
        2,
        b"{\"a\":[1]]",
        Err(ScanFault::Syntax(8)),
    ),
    (
        "a bracket too many",
        2,
        b"[[1]]]",
        Err(ScanFault::Syntax(5)),
    ),
    (
        "a comma before a bracket",
        2,
        b"[[1],]",
        Err(ScanFault::Syntax(5)),
    ),
    (
        "a number for a name",
        2,
        b"{\"a\":[1],2}",
        Err(ScanFault::Syntax(9)),
    ),
    (
        "too deep behind a number",
        2,
        b"[1,[2,[3]]]",
        Err(ScanFault::TooDeep(6)),
    ),
];

#[test]
fn arrays_of_numbers(rt: HostRuntime) {
    all_meet_at_depths(&rt, rt.alloc(), ARRAYS.as_slice());
}

const BLOCKS: [DepthRow; 18] = [
    (
        "numbers to the end of a block",
        2,
        b"[[1234567,1234567,1234567,1234567]]",
        Ok((6, 2)),
    ),
    (
        "a digit more",
        2,
        b"[[1234567,1234567,1234567,12345678]]",
        Ok((6, 2)),
    ),
    (
        "a number longer than a block",
        2,
        b"[[111111111111111111111111111111111,2]]",
        Ok((4, 2)),
    ),
    (
        "a 0 before a digit",
        2,
        b"[[10,20,30,40,50,60,70,80,00,1]]",
        Err(ScanFault::Syntax(27)),
    ),
    (
        "two commas",
        2,
        b"[[10,20,30,40,50,60,70,80,,90,1]]",
        Err(ScanFault::Syntax(26)),
    ),
    (
        "a minus here and there",
        2,
        b"[[10,-20,30,-40,50,-60,70,-80,90]]",
        Ok((11, 2)),
    ),
    (
        "a minus alone",
        2,
        b"[[10,20,30,40,50,60,70,80,-,90,1]]",
        Err(ScanFault::Syntax(27)),
    ),
    (
        "a fraction",
        2,
        b"[[10,20,30,40,50,60,70,80,1.5,90]]",
        Ok((12, 2)),
    ),
    (
        "a comma before the bracket",
        2,
        b"[[100,20,30,40,50,60,70,80,90,]]",
        Err(ScanFault::Syntax(30)),
    ),
    (
        "closed as an object",
        2,
        b"[[100,20,30,40,50,60,70,80,90,1}]",
        Err(ScanFault::Syntax(31)),
    ),
    (
        "cut behind a number",
        2,
        b"[[10,20,30,40,50,60,70,80,90,100",
        Err(ScanFault::Syntax(32)),
    ),
    (
        "cut behind a comma",
        2,
        b"[[10,20,30,40,50,60,70,80,90,10,",
        Err(ScanFault::Syntax(32)),
    ),
    (
        "white space behind a number",
        2,
        b"[[1 ,2],[3, 4]]",
        Ok((7, 2)),
    ),
    ("a text behind a number", 2, b"[[1,\"a\"],2]", Ok((5, 2))),
    ("empty arrays", 2, b"[[],[1],[]]", Ok((5, 2))),
    (
        "too deep with numbers alone",
        1,
        b"[[1,2],3]",
        Err(ScanFault::TooDeep(1)),
    ),
    (
        "too deep behind numbers",
        2,
        b"[[1,2,[3]]]",
        Err(ScanFault::TooDeep(6)),
    ),
    ("an array behind numbers", 3, b"[[1,2,[3]]]", Ok((6, 3))),
];

#[test]
fn numbers_in_blocks(rt: HostRuntime) {
    all_meet_at_depths(&rt, rt.alloc(), BLOCKS.as_slice());
}

const ARRAYS_IN_ARRAYS: [DepthRow; 12] = [
    ("an array in each array", 4, b"[[[[]]]]", Ok((4, 4))),
    ("empty arrays in arrays", 3, b"[[[]],[[]]]", Ok((5, 3))),
    (
        "numbers in arrays in arrays",
        3,
        b"[[[1,2]],[[3],4]]",
        Ok((9, 3)),
    ),
    (
        "empty arrays in an object",
        3,
        b"{\"a\":[[]],\"b\":[]}",
        Ok((6, 3)),
    ),
    ("white space in empty arrays", 3, b"[[[ ],[ ]]]", Ok((4, 3))),
    (
        "one array too deep",
        3,
        b"[[[[1]]]]",
        Err(ScanFault::TooDeep(3)),
    ),
    (
        "one array too deep after a comma",
        2,
        b"[[1],[[2]]]",
        Err(ScanFault::TooDeep(6)),
    ),
    (
        "a comma in an empty array",
        3,
        b"[[[,]]]",
        Err(ScanFault::Syntax(3)),
    ),
    (
        "a comma before the bracket of an outer array",
        3,
        b"[[[1],]]",
        Err(ScanFault::Syntax(6)),
    ),
    (
        "a bracket too many after empty arrays",
        3,
        b"[[[]]]]",
        Err(ScanFault::Syntax(6)),
    ),
    (
        "the end after brackets",
        3,
        b"[[[",
        Err(ScanFault::Syntax(3)),
    ),
    (
        "the end after an empty array",
        3,
        b"[[[]",
        Err(ScanFault::Syntax(4)),
    ),
];

#[test]
fn arrays_in_arrays(rt: HostRuntime) {
    all_meet_at_depths(&rt, rt.alloc(), ARRAYS_IN_ARRAYS.as_slice());
}

const MEMBERS: [DepthRow; 7] = [
    ("two texts", 1, b"{\"a\":\"b\",\"c\":\"d\"}", Ok((5, 1))),
    (
        "a text with an escape, and an empty one",
        1,
        b"{\"a\":\"\\n\",\"b\":\"\"}",
        Ok((5, 1)),
    ),
    (
        "a comma before a brace",
        1,
        b"{\"a\":\"b\",}",
        Err(ScanFault::Syntax(9)),
    ),
    (
        "an object closed as an array behind a text",
        1,
        b"{\"a\":\"b\"]",
        Err(ScanFault::Syntax(8)),
    ),
    (
        "a name without a value",
        1,
        b"{\"a\":\"b\",\"c\"}",
        Err(ScanFault::Syntax(12)),
    ),
    (
        "a member in an array",
        1,
        b"[\"a\",\"b\":1]",
        Err(ScanFault::Syntax(8)),
    ),
    (
        "a member in an array of an object",
        2,
        b"{\"a\":[\"b\",\"c\":0]}",
        Err(ScanFault::Syntax(13)),
    ),
];

#[test]
fn members_that_are_texts(rt: HostRuntime) {
    all_meet_at_depths(&rt, rt.alloc(), MEMBERS.as_slice());
}

const CONTAINERS: [DepthRow; 8] = [
    (
        "an object in an object",
        2,
        b"{\"a\":{\"b\":\"c\"}}",
        Ok((5, 2)),
    ),
    (
        "empty containers",
        2,
        b"{\"a\":{},\"b\":[],\"c\":\"d\"}",
        Ok((7, 2)),
    ),
    (
        "a comma behind a brace",
        2,
        b"{\"a\":{,\"b\":1}}",
        Err(ScanFault::Syntax(6)),
    ),
    (
        "an object deeper than allowed",
        1,
        b"{\"a\":{}}",
        Err(ScanFault::TooDeep(5)),
    ),
    (
        "an array deeper than allowed",
        1,
        b"{\"a\":[]}",
        Err(ScanFault::TooDeep(5)),
    ),
    (
        "an object closed as an array",
        2,
        b"{\"a\":{\"b\":\"c\"]}",
        Err(ScanFault::Syntax(13)),
    ),
    (
        "an array closed as an object",
        2,
        b"{\"a\":[}}",
        Err(ScanFault::Syntax(6)),
    ),
    (
        "a line that ends behind a brace",
        2,
        b"{\"a\":{",
        Err(ScanFault::Syntax(6)),
    ),
];

#[test]
fn members_that_are_containers(rt: HostRuntime) {
    all_meet_at_depths(&rt, rt.alloc(), CONTAINERS.as_slice());
}

fn have_lengths(rt: &impl Abort, tokens: &Bounded<Token>, stack: &Stack, want: (usize, usize)) {
    check_same(rt, (tokens.len(), stack.len()), want);
}

fn have_peaks(rt: &impl Abort, tokens: &Bounded<Token>, stack: &Stack, want: (usize, usize)) {
    check_same(rt, (tokens.peak(), stack.peak()), want);
}

fn have_limits(rt: &impl Abort, tokens: &Bounded<Token>, stack: &Stack, want: (usize, usize)) {
    check_same(rt, (tokens.limit(), stack.limit()), want);
}

/// Scans brackets into lists of which the stack holds 1,024.
fn answers_to_brackets(
    rt: &impl Abort,
    line: &[u8; 1_025],
    tokens: &mut Bounded<Token>,
    stack: &mut Stack,
) {
    answers(rt, line, tokens, stack, Err(ScanFault::TooDeep(1_024)));
    have_lengths(rt, tokens, stack, (1_024, 1_024));
    answers(
        rt,
        &line[..1_024],
        tokens,
        stack,
        Err(ScanFault::Syntax(1_024)),
    );
}

#[test]
fn a_thousand_brackets(rt: HostRuntime) {
    let line = [b'['; 1_025];
    let mut tokens: Bounded<Token> = Bounded::new(rt.alloc(), 1_025);
    let mut deep = Stack::new(rt.alloc(), 1_024);
    answers_to_brackets(&rt, &line, &mut tokens, &mut deep);
    let mut shallow = Stack::new(rt.alloc(), 64);
    answers(
        &rt,
        &line,
        &mut tokens,
        &mut shallow,
        Err(ScanFault::TooDeep(64)),
    );
    have_lengths(&rt, &tokens, &shallow, (64, 64));
    have_peaks(&rt, &tokens, &shallow, (1_024, 64));
}

/// Scans three lines, one after another, into lists with reserved memory.
fn answers_in_turn(rt: &impl Abort, tokens: &mut Bounded<Token>, stack: &mut Stack) {
    let too_deep = Err(ScanFault::TooDeep(1_024));
    answers_reserved(rt, &[b'['; 1_025], tokens, stack, too_deep);
    answers_reserved(rt, b"[1,2]", tokens, stack, Ok((3, 1_024)));
    answers_reserved(rt, b"[1", tokens, stack, Err(ScanFault::Syntax(2)));
}

#[test]
fn lists_that_are_reserved_once(rt: HostRuntime) {
    let mut tokens: Bounded<Token> = Bounded::new(rt.alloc(), 1_025);
    let mut stack = Stack::new(rt.alloc(), 1_024);
    reserve(&rt, &mut tokens, &mut stack);
    answers_in_turn(&rt, &mut tokens, &mut stack);
    have_peaks(&rt, &tokens, &stack, (1_024, 1_024));
}

/// Returns the number of the first value or name after this one and its parts.
fn link_of(node: Node) -> u32 {
    node.number().wrapping_add(node.size())
}

/// Checks where a value or name is, and what it links to. It has no mark.
fn is_placed(rt: &impl Abort, node: Node, want: (usize, usize, u32)) {
    let (start, stop) = node.span();
    check_same(rt, (start, stop, link_of(node)), want);
    assert!(rt; !node.marked());
}

fn is_count(rt: &impl Abort, got: usize, want: usize) {
    check_same(rt, got, want);
}

/// Checks where each value and name is, and what it links to. None has a mark.
fn are_placed(rt: &impl Abort, line: &[u8], tokens: &[Token], want: &[(usize, usize, u32)])
    requires scanned { AreOf line.now tokens.now }
{
    let root = Doc::of(line, tokens).root();
    is_count(rt, tokens.len(), want.len());
    for (number, place) in want.iter().enumerate() {
        assert!(rt; number < 64);
        is_placed(rt, root.at(number as u32), *place);
    }
}

const PLACES: [(usize, usize, u32); 8] = [
    (1, 36, 8),
    (2, 5, 2),
    (8, 26, 6),
    (9, 13, 4),
    (15, 21, 5),
    (22, 25, 6),
    (27, 30, 7),
    (31, 35, 8),
];

#[test]
fn tokens_stand_where_the_values_do(rt: HostRuntime) {
    let line = b" {\"a\" : [true, -1.5e3,\"x\"],\"b\":null}";
    let tokens = tokens_of(&rt, rt.alloc(), line);
    are_placed(&rt, line, tokens.as_slice(), &PLACES);
}

fn is_link(rt: &impl Abort, got: u32, want: u32) {
    check_same(rt, got, want);
}

/// Checks that each token has its link, and that places give the same.
fn are_linked(rt: &impl Abort, line: &[u8], tokens: &[Token], want: &[u32])
    requires scanned { AreOf line.now tokens.now }
    requires short { length line.now ≤ 60 }
{
    assert!(rt; tokens.len() <= 64);
    is_count(rt, tokens.len(), want.len());
    let root = Doc::of(line, tokens).root();
    for (index, link) in want.iter().enumerate() {
        assert!(rt; index < tokens.len());
        is_link(rt, link_of(root.at(index as u32)), *link);
        is_link(rt, slow_next(line, tokens, index as u32), *link);
    }
}

/// Checks the links that a scan of the line leaves.
fn has_links(rt: &impl Abort, alloc: Global, line: &[u8], want: &[u32]) {
    assert!(rt; line.len() <= 60);
    let tokens = tokens_of(rt, alloc, line);
    are_linked(rt, line, tokens.as_slice(), want);
}

const LINKS_OF_MEMBERS: [u32; 7] = [7, 2, 5, 4, 5, 6, 7];

const LINKS_OF_ITEMS: [u32; 5] = [5, 2, 3, 5, 5];

const LINKS_OF_NUMBERS: [u32; 6] = [6, 4, 3, 4, 6, 6];

#[test]
fn tokens_link_past_their_parts(rt: HostRuntime) {
    let members = b"{\"a\":{\"b\":[]},\"c\":0}";
    has_links(&rt, rt.alloc(), members, &LINKS_OF_MEMBERS);
    has_links(&rt, rt.alloc(), b"[[],{},[1]]", &LINKS_OF_ITEMS);
    has_links(&rt, rt.alloc(), b"[[1,2],[3]]", &LINKS_OF_NUMBERS);
}

/// Scans three lines, one after another, into lists that grow.
fn answers_while_growing(rt: &impl Abort, tokens: &mut Bounded<Token>, stack: &mut Stack) {
    answers(rt, b"[[[", tokens, stack, Err(ScanFault::Syntax(3)));
    have_lengths(rt, tokens, stack, (3, 3));
    answers(rt, b"[1,2,3,4]", tokens, stack, Ok((5, 3)));
    answers(rt, b"7", tokens, stack, Ok((1, 3)));
}

#[test]
fn lists_are_emptied_first(rt: HostRuntime) {
    let mut tokens: Bounded<Token> = Bounded::new(rt.alloc(), 100);
    let mut stack = Stack::new(rt.alloc(), 8);
    answers_while_growing(&rt, &mut tokens, &mut stack);
    have_peaks(&rt, &tokens, &stack, (5, 3));
    have_limits(&rt, &tokens, &stack, (100, 8));
}

/// A line with a fault, and the peak of open containers in the bytes before it.
type FaultRow = (&'static [u8], ScanFault, usize);

const FAULTS: [FaultRow; 9] = [
    (b"\xFF", ScanFault::NotUtf8(0), 0),
    (b"[[1,2],\xFF", ScanFault::NotUtf8(7), 0),
    (b"]", ScanFault::Syntax(0), 0),
    (b"[", ScanFault::Syntax(1), 1),
    (b"[1,]", ScanFault::Syntax(3), 1),
    (b"[[1,2],3}", ScanFault::Syntax(8), 2),
    (b"[[1],{\"a\":[}", ScanFault::Syntax(11), 3),
    (b"[[[]]", ScanFault::Syntax(5), 3),
    (b"[[[[0]]]]", ScanFault::TooDeep(3), 3),
];

/// Scans the line of a row under a depth limit of 3, and compares the fault and the peak.
fn has_peak(rt: &impl Abort, alloc: Global, row: FaultRow) {
    let (line, fault, peak) = row;
    let mut tokens: Bounded<Token> = Bounded::new(alloc, 100);
    let mut stack = Stack::new(alloc, 3);
    answers(rt, line, &mut tokens, &mut stack, Err(fault));
    is_count(rt, stack.peak(), peak);
}

#[test]
fn peaks_at_faults(rt: HostRuntime) {
    for row in FAULTS {
        has_peak(&rt, rt.alloc(), row);
    }
}

/// Checks lists that are empty, since they were refused memory.
fn are_empty(rt: &impl Abort, tokens: &Bounded<Token>, stack: &Stack) {
    assert!(rt; tokens.is_empty() && stack.is_empty() && tokens.peak() == 0);
}

/// Scans 300 brackets into lists that may be refused memory. If they are, both are empty.
fn is_memory_or_syntax(rt: &impl Abort, tokens: &mut Bounded<Token>, stack: &mut Stack) {
    let got = answer(rt, &[b'['; 300], tokens, stack);
    if got == Err(ScanFault::Memory) {
        are_empty(rt, tokens, stack);
    } else {
        is_answer(rt, got, Err(ScanFault::Syntax(300)));
    }
}

/// This is also run with each growth failed, one after another: `rt try --test --fail-alloc N`.
#[test]
fn a_failed_growth_is_memory(rt: HostRuntime) {
    let mut tokens: Bounded<Token> = Bounded::new(rt.alloc(), 300);
    let mut stack = Stack::new(rt.alloc(), 300);
    is_memory_or_syntax(&rt, &mut tokens, &mut stack);
    let cut = Err(ScanFault::Syntax(300));
    answers(&rt, &[b'['; 300], &mut tokens, &mut stack, cut);
    have_lengths(&rt, &tokens, &stack, (300, 300));
}

/// Each reason with its code and its text.
const REASONS: [(Reason, u8, &str); 27] = [
    (Reason::NoHeader, 1, "no header line"),
    (Reason::LineTooLong, 2, "line too long"),
    (Reason::NotUtf8, 3, "not UTF-8"),
    (Reason::Syntax, 4, "syntax"),
    (Reason::TooDeep, 5, "nested too deep"),
    (Reason::MissingMember, 10, "member missing"),
    (Reason::DuplicateName, 11, "duplicate name"),
    (Reason::WrongKind, 12, "wrong kind"),
    (Reason::NumberRange, 13, "number out of range"),
    (Reason::WrongType, 14, "wrong type"),
    (Reason::WrongVersion, 15, "wrong version"),
    (Reason::NotEmpty, 16, "not empty"),
    (Reason::NotThree, 17, "not three items"),
    (Reason::NotWhole, 18, "not a whole number"),
    (Reason::UnknownObjectType, 19, "unknown object type"),
    (Reason::IdNotFound, 20, "id not among the city objects"),
    (Reason::ChildNotFound, 21, "child not found"),
    (Reason::LinkNotMutual, 22, "link not mutual"),
    (Reason::NoParent, 23, "no parent in the feature"),
    (Reason::UnknownGeometryType, 24, "unknown geometry type"),
    (Reason::VertexIndex, 25, "vertex index out of range"),
    (Reason::SemanticsCount, 26, "semantics count"),
    (Reason::SemanticsIndex, 27, "semantics index out of range"),
    (Reason::TemplateIndex, 28, "template index out of range"),
    (Reason::BadInstance, 29, "bad instance"),
    (Reason::TransformNotFixed, 30, "transform not fixed"),
    (Reason::NotReached, 31, "not reached from the main object"),
];

fn has_code(rt: &impl Abort, reason: Reason, code: u8) {
    check_same(rt, reason.code(), code);
}

fn has_text(rt: &impl Abort, reason: Reason, text: &str) {
    check_same(rt, reason.text(), text);
}

#[test]
fn reasons_have_their_codes_and_texts(rt: HostRuntime) {
    for (reason, code, text) in &REASONS {
        has_code(&rt, *reason, *code);
        has_text(&rt, *reason, *text);
    }
}

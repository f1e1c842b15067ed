//! Rows of views. Expected values are read from the lines by hand.
ghost use Rattle.cj_spans.specs.Sound.{AreOf};

use super::checks::{check_named, check_same};
use super::tokens_of;
use cj_spans::{Doc, Items, Kind, Node, Token, tail_of_string};
use std::alloc::Global;
use std::cmp::Ordering;
use std::process::Abort;
use std::test::Fail;

/// A line, and what its value shows.
#[derive(Clone, Copy, Drop)]
struct Row {
    line: &'static [u8],
    kind: Kind,
    start: u64,
    bytes: &'static [u8],
    items: usize,
    members: usize,
    first_code: Option<u32>,
}

/// Returns whether a node is of this kind, at this place, and has these bytes.
fn is_at(node: Node, kind: Kind, start: u64, bytes: &[u8]) -> bool {
    node.kind() == kind && node.start() == start && node.bytes() == bytes
}

/// Returns whether a node has the parts and the first code point of the row.
fn has_parts(node: Node, row: &Row) -> bool {
    node.items().count() == row.items
        && node.members().count() == row.members
        && node.first_code() == row.first_code
}

fn are_bytes(rt: &impl Abort, got: &[u8], want: &[u8]) {
    check_same(rt, got, want);
}

fn is_number(rt: &impl Abort, got: u64, want: u64) {
    check_same(rt, got, want);
}

/// Checks that something holds for the value at a place.
fn holds_at(rt: &impl Abort, holds: bool, place: u64) {
    assert!(rt; holds, "at {place}");
}

fn is_value(rt: &impl Abort, node: Node, row: &Row) {
    let is_there = is_at(node, row.kind, row.start, row.bytes);
    assert!(rt; is_there && has_parts(node, row), "{:?}", row.line);
}

fn meets(rt: &impl Abort, alloc: Global, row: &Row) {
    let tokens = tokens_of(rt, alloc, row.line);
    let doc = Doc::of(row.line, tokens.as_slice());
    are_bytes(rt, doc.line(), row.line);
    is_value(rt, doc.root(), row);
}

fn all_meet(rt: &impl Abort, alloc: Global, rows: &[Row]) {
    for row in rows {
        meets(rt, alloc, row);
    }
}

/// Returns the row of a value without parts. The line has these bytes of it from this place on.
fn scalar(line: &'static [u8], kind: Kind, start: u64, bytes: &'static [u8]) -> Row {
    Row {
        line,
        kind,
        start,
        bytes,
        items: 0,
        members: 0,
        first_code: None,
    }
}

/// Returns the row of a line that is a string, with the first code point of its text.
fn text(line: &'static [u8], first_code: Option<u32>) -> Row {
    Row {
        first_code,
        ..scalar(line, Kind::Text, 0, line)
    }
}

#[test]
fn scalars_show_what_they_are(rt: HostRuntime) {
    let rows = [
        scalar(b"null", Kind::Null, 0, b"null"),
        scalar(b"true", Kind::Truth, 0, b"true"),
        scalar(b" false ", Kind::Truth, 1, b"false"),
        scalar(b"\t-1.50e+3", Kind::Number, 1, b"-1.50e+3"),
        scalar(b"  0", Kind::Number, 2, b"0"),
    ];
    all_meet(&rt, rt.alloc(), rows.as_slice());
}

#[test]
fn texts_show_their_first_code(rt: HostRuntime) {
    let rows = [
        text(b"\"\"", None),
        text(b"\"[{\"", Some(91)),
        text(b"\"\\u0032.2\"", Some(50)),
        text(b"\"\\n\"", Some(10)),
        text(b"\"\xE2\x82\xAC\"", Some(0x20AC)),
        text(b"\"\xF0\x9F\x98\x80\"", Some(0x1F600)),
        text(b"\"\\uD83D\\uDE00\"", Some(0x1F600)),
        text(b"\"\\ud83d\"", Some(0xD83D)),
    ];
    all_meet(&rt, rt.alloc(), rows.as_slice());
}

#[test]
fn containers_show_how_many_they_hold(rt: HostRuntime) {
    let rows = [
        scalar(b"[]", Kind::Array, 0, b"[]"),
        Row {
            items: 3,
            ..scalar(
                b" [1,[2,3],{\"a\":4}] ",
                Kind::Array,
                1,
                b"[1,[2,3],{\"a\":4}]",
            )
        },
        scalar(b"{}", Kind::Object, 0, b"{}"),
        Row {
            members: 2,
            ..scalar(
                b"{\"a\":{\"b\":[]},\"c\":0}",
                Kind::Object,
                0,
                b"{\"a\":{\"b\":[]},\"c\":0}",
            )
        },
    ];
    all_meet(&rt, rt.alloc(), rows.as_slice());
}

/// A value with its kind, its place and its bytes.
type Item = (Kind, u64, &'static [u8]);

/// A member with its place, its name and its value.
type Member = (u64, &'static [u8], &'static [u8]);

/// A name with the bytes of its value.
type Got = (&'static str, Option<&'static [u8]>);

/// What the value of a line shows.
#[derive(Clone, Copy)]
enum Shown<'a> {
    /// Its items, in order.
    Items(&'a [Item]),
    /// Its members, in order.
    Members(&'a [Member]),
    /// The values of names.
    Got(&'a [Got]),
    /// The values of names in the value of a name.
    GotWithin(&'a str, &'a [Got]),
    /// Whether its names begin apart.
    Apart(bool),
    /// The texts of its items. Two are the same if they are equal here.
    Texts(&'a [Option<&'a str>]),
    /// The ranks of its items in the order of their texts. Items of one rank are equal.
    Ranks(&'a [u8]),
    /// How its items compare with a text.
    Beside(&'a str, &'a [Ordering]),
    /// The words of its items' texts.
    Words(&'a [u64]),
    /// The tails of its items' texts.
    Tails(&'a [u64]),
    /// The mixed numbers of its items' texts.
    Mixes(&'a [u64]),
    /// The numbers of its names and values.
    Numbers(&'a [(u32, u32)]),
    /// Its size, and the first item after each number of values and names.
    Behind(u32, &'a [(u32, Option<&'a [u8]>)]),
    /// Which of its items are short triples of whole numbers.
    Triples(&'a [bool]),
}

fn is_shown(rt: &impl Abort, root: Node, shown: Shown) {
    match shown {
        Shown::Items(want) => items_are(rt, root, want),
        Shown::Members(want) => members_are(rt, root, want),
        Shown::Got(want) => are_got(rt, root, want),
        Shown::GotWithin(name, want) => are_got_within(rt, root, name, want),
        Shown::Apart(want) => check_same(rt, root.get_four("", "", "", "").apart, want),
        Shown::Texts(texts) => are_texts(rt, root.items(), texts),
        Shown::Ranks(ranks) => are_ranked(rt, root.items(), ranks),
        Shown::Beside(text, want) => are_ordered_beside(rt, root.items(), text, want),
        Shown::Words(want) => words_are(rt, root.items(), want),
        Shown::Tails(want) => tails_are(rt, root.items(), want),
        Shown::Mixes(want) => mixes_are(rt, root.items(), want),
        Shown::Numbers(want) => numbers_are(rt, root, want),
        Shown::Behind(size, want) => are_behind(rt, root, size, want),
        Shown::Triples(want) => triples_are(rt, root.items(), want),
    }
}

/// Checks what a line shows.
fn shows(rt: &impl Abort, alloc: Global, line: &[u8], shown: Shown) {
    let tokens = tokens_of(rt, alloc, line);
    is_shown(rt, Doc::of(line, tokens.as_slice()).root(), shown);
}

fn item_is(rt: &impl Abort, item: Option<Node>, kind: Kind, start: u64, bytes: &[u8]) {
    match item {
        Some(node) => holds_at(rt, is_at(node, kind, start, bytes), start),
        None => holds_at(rt, false, start),
    }
}

/// Checks that the items of a list have these kinds, places and bytes, in order.
fn items_are(rt: &impl Abort, list: Node, want: &[Item]) {
    let mut items = list.items();
    for (kind, start, bytes) in want {
        item_is(rt, items.next(), *kind, *start, *bytes);
    }
    assert!(rt; items.next().is_none());
}

#[test]
fn items_come_in_order(rt: HostRuntime) {
    let line = b"[null, [1,[2],3] ,{\"a\":[4]},\"x\"]";
    shows(&rt, rt.alloc(), line, Shown::Items(&ITEMS));
}

const ITEMS: [Item; 4] = [
    (Kind::Null, 1, b"null"),
    (Kind::Array, 7, b"[1,[2],3]"),
    (Kind::Object, 18, b"{\"a\":[4]}"),
    (Kind::Text, 28, b"\"x\""),
];

fn member_is(rt: &impl Abort, member: Option<(Node, Node)>, start: u64, name: &[u8], value: &[u8]) {
    match member {
        Some((key, node)) => {
            holds_at(rt, is_at(key, Kind::Text, start, name), start);
            are_bytes(rt, node.bytes(), value);
        }
        None => holds_at(rt, false, start),
    }
}

/// Checks that the members of an object have these places, names and values, in order.
fn members_are(rt: &impl Abort, object: Node, want: &[Member]) {
    let mut members = object.members();
    for (start, name, value) in want {
        member_is(rt, members.next(), *start, *name, *value);
    }
    assert!(rt; members.next().is_none());
}

const MEMBERS: [Member; 3] = [
    (1, b"\"a\"", b"{\"b\":[1,{}]}"),
    (20, b"\"\"", b"0"),
    (25, b"\"a\"", b"\"z\""),
];

#[test]
fn members_come_in_order(rt: HostRuntime) {
    let line = b"{\"a\":{\"b\":[1,{}]} , \"\":0,\"a\":\"z\"}";
    shows(&rt, rt.alloc(), line, Shown::Members(&MEMBERS));
}

/// Returns the bytes of a value, if there is one.
fn bytes_of<'a>(value: Option<Node<'a>>) -> Option<&'a [u8]> {
    match value {
        Some(value) => Some(value.bytes()),
        None => None,
    }
}

/// Returns the bytes of the member with this name.
fn got<'a>(node: Node<'a>, name: &str) -> Option<&'a [u8]> {
    bytes_of(node.get(name))
}

/// Checks that a walk for this name and another finds their values, at each of the four places.
fn are_got_of_four(rt: &impl Abort, object: Node, name: &str, other: &str, want: Option<&[u8]>) {
    let members = object.get_four(name, other, name, other);
    let behind = got(object, other);
    check_named(rt, bytes_of(object.at_if(members.first)), want, name);
    check_named(rt, bytes_of(object.at_if(members.second)), behind, other);
    check_named(rt, bytes_of(object.at_if(members.third)), want, name);
    check_named(rt, bytes_of(object.at_if(members.fourth)), behind, other);
}

/// Checks that an object has these values by name, alone and beside others.
fn are_got(rt: &impl Abort, object: Node, rows: &[Got]) {
    for (name, want) in rows {
        check_named(rt, got(object, *name), *want, name);
        for (other, _) in rows {
            are_got_of_four(rt, object, *name, *other, *want);
        }
    }
}

/// Checks that the value of a name has these values by name.
fn are_got_within(rt: &impl Abort, object: Node, name: &str, rows: &[Got]) {
    are_got(rt, object.get(name).expect(rt, "a member"), rows);
}

const BY_TEXT: [Got; 11] = [
    ("a", Some(b"1")),
    ("b", Some(b"2")),
    ("\u{1F600}", Some(b"5")),
    ("\u{20AC}", Some(b"7")),
    ("a\nb", Some(b"8")),
    ("", Some(b"9")),
    ("aa", Some(b"[10]")),
    ("A", None),
    ("aaa", None),
    ("\\u0062", None),
    ("\u{FFFD}", None),
];

const IN_AA: [Got; 1] = [("a", None)];

#[test]
fn members_are_found_by_their_text(rt: HostRuntime) {
    let line =
        b"{\"a\":1,\"\\u0062\":2,\"b\":3,\"a\":4,\"\\uD83D\\uDE00\":5,\"\\ud83d\":6,\"\xE2\x82\xAC\":7,\"a\\nb\":8,\"\":9,\"aa\":[10]}";
    shows(&rt, rt.alloc(), line, Shown::Got(&BY_TEXT));
    shows(&rt, rt.alloc(), line, Shown::GotWithin("aa", &IN_AA));
}

const LONG_NAMES: [Got; 11] = [
    ("geometry", Some(b"2")),
    ("geometrz", Some(b"1")),
    ("geometr", None),
    ("geometryy", None),
    ("boundaries", Some(b"4")),
    ("boundariez", Some(b"3")),
    ("sixteen letters.", Some(b"6")),
    ("sixteen letters,", None),
    ("seventeen letters", Some(b"7")),
    ("g\u{E9}ometrie", Some(b"8")),
    ("geometrie", None),
];

#[test]
fn members_of_long_names_are_found(rt: HostRuntime) {
    let line =
        b"{\"geometrz\":1,\"geometry\":2,\"boundariez\":3,\"\\u0062oundaries\":4,\"boundaries\":5,\"sixteen letters.\":6,\"seventeen letters\":7,\"g\xC3\xA9ometrie\":8}";
    shows(&rt, rt.alloc(), line, Shown::Got(&LONG_NAMES));
}

const APART: [(&[u8], bool); 9] = [
    (b"{}", true),
    (b"3", true),
    (b"{\"a\":1,\"b\":{\"a\":2}}", true),
    (b"{\"\\u0061\":1,\"\\u0062\":2}", true),
    (b"{\"a\":1,\"b\":2,\"a\":3}", false),
    (b"{\"ab\":1,\"ac\":2}", false),
    (b"{\"ab\":1,\"\\u0061c\":2}", false),
    (b"{\"A\":1,\"a\":2}", false),
    (b"{\"\":1}", false),
];

#[test]
fn names_that_begin_apart_are_seen(rt: HostRuntime) {
    for (line, want) in &APART {
        shows(&rt, rt.alloc(), *line, Shown::Apart(*want));
    }
}

/// Returns whether an item has the text of another exactly if both are wanted to have one. What is
/// no text, and a text that is no `str`, is the same as itself alone.
fn is_compared(item: Node, text: Option<&str>, other: Node, other_text: Option<&str>) -> bool {
    match other_text {
        Some(name) => {
            let same = text == other_text;
            item.text_is(name) == same && item.same_text(other) == same
        }
        None => {
            let same = item.start() == other.start() && item.kind() == Kind::Text;
            item.same_text(other) == same
        }
    }
}

/// Returns whether an item is compared with each item as wanted.
fn are_compared(item: Node, text: Option<&str>, items: Items, texts: &[Option<&str>]) -> bool {
    let mut all = true;
    for (other, other_text) in items.zip(texts.iter()) {
        all = all && is_compared(item, text, other, *other_text);
    }
    all
}

fn are_texts(rt: &impl Abort, items: Items, texts: &[Option<&str>]) {
    for (item, text) in items.zip(texts.iter()) {
        holds_at(rt, are_compared(item, *text, items, texts), item.start());
    }
}

const TEXTS: [Option<&str>; 11] = [
    Some("b1"),
    Some("b1"),
    Some("b"),
    Some(""),
    Some("\u{E9}"),
    Some("\u{E9}"),
    Some("e\u{301}"),
    Some("\u{1F600}"),
    None,
    None,
    Some("12"),
];

#[test]
fn texts_are_compared_by_code_points(rt: HostRuntime) {
    let line =
        b"[\"b1\",\"\\u00621\",\"b\",\"\",\"\\u00e9\",\"\xC3\xA9\",\"e\\u0301\",\"\\ud83d\\ude00\",\"\\ud83d\",12,\"12\"]";
    shows(&rt, rt.alloc(), line, Shown::Texts(&TEXTS));
}

/// Returns whether an item compares with the others as its rank compares with theirs. Items of one
/// rank are equal.
fn is_ordered(item: Node, rank: u8, items: Items, ranks: &[u8]) -> bool {
    let mut all = true;
    for (other, other_rank) in items.zip(ranks.iter()) {
        all = all && item.compare_text(other) == rank.cmp(other_rank);
    }
    all
}

fn are_ranked(rt: &impl Abort, items: Items, ranks: &[u8]) {
    for (item, rank) in items.zip(ranks.iter()) {
        holds_at(rt, is_ordered(item, *rank, items, ranks), item.start());
    }
}

#[test]
fn texts_are_ordered_by_code_points(rt: HostRuntime) {
    let line =
        b"[12,\"\",\"12\",\"b\",\"b1\",\"\\u00621\",\"e\\u0301\",\"\\u00e9\",\"\xC3\xA9\",\"\\ud83d\",\"\\uFFFD\",\"\xF0\x9F\x98\x80\",\"\\ud83d\\ude00\"]";
    let ranks = Shown::Ranks(&[0, 1, 2, 3, 4, 4, 5, 6, 6, 7, 8, 9, 9]);
    shows(&rt, rt.alloc(), line, ranks);
}

fn words_are(rt: &impl Abort, items: Items, words: &[u64]) {
    for (item, word) in items.zip(words.iter()) {
        is_number(rt, item.text_word(), *word);
    }
}

const WORDS: [u64; 9] = [
    0,
    0,
    0x6100_0000_0000_0000,
    0x6162_0000_0000_0000,
    0x6162_6364_6566_6768,
    0x6162_6364_6566_6768,
    0x61FF_0000_0000_0000,
    0xE961_0000_0000_0000,
    0xFF00_0000_0000_0000,
];

#[test]
fn words_are_of_the_first_eight_code_points(rt: HostRuntime) {
    let line =
        b"[12,\"\",\"a\",\"\\u0061b\",\"abcdefgh\",\"abcdefghi\",\"a\xE2\x82\xACb\",\"\\u00e9a\",\"\xC3\xBFa\"]";
    shows(&rt, rt.alloc(), line, Shown::Words(&WORDS));
}

fn tails_are(rt: &impl Abort, items: Items, tails: &[u64]) {
    for (item, tail) in items.zip(tails.iter()) {
        is_number(rt, item.text_tail(), *tail);
    }
}

const TAILS: [u64; 9] = [
    0,
    0,
    0x61,
    0x6162,
    0x6162_6364_6566_6768,
    0x6162_6364_6566_6768,
    0x61_FF62,
    0xE961,
    0xFF61,
];

#[test]
fn tails_are_of_the_last_eight_code_points(rt: HostRuntime) {
    let line =
        b"[12,\"\",\"a\",\"\\u0061b\",\"abcdefgh\",\"xabcdefgh\",\"a\xE2\x82\xACb\",\"\\u00e9a\",\"\xC3\xBFa\"]";
    shows(&rt, rt.alloc(), line, Shown::Tails(&TAILS));
    is_number(&rt, tail_of_string("a\u{20AC}b"), 0x61_FF62);
}

fn mixes_are(rt: &impl Abort, items: Items, mixes: &[u64]) {
    for (item, hash) in items.zip(mixes.iter()) {
        is_number(rt, item.text_hash(), *hash);
    }
}

const MIXES: [u64; 9] = [
    0,
    0,
    0x61,
    0xF305_1F49_3B39_0457,
    0x4D9A_B593_4765_C614,
    0x814E_5318_5DBE_B38C,
    0xD552_12BA_FEF7_FD97,
    0x007D_C9D4_DACA_EF7E,
    0x9942_3FC5_CB31_994C,
];

#[test]
fn numbers_are_mixed_of_all_code_points(rt: HostRuntime) {
    let line =
        b"[12,\"\",\"a\",\"\\u0061b\",\"abcdefgh\",\"xabcdefgh\",\"a\xE2\x82\xACb\",\"\\u00e9a\",\"\xC3\xBFa\"]";
    shows(&rt, rt.alloc(), line, Shown::Mixes(&MIXES));
}

/// Checks that the items of a line compare with a text as wanted.
fn are_ordered_beside(rt: &impl Abort, items: Items, text: &str, wanted: &[Ordering]) {
    for (item, order) in items.zip(wanted.iter()) {
        holds_at(rt, item.compare_with(text) == *order, item.start());
    }
}

const BESIDE_B1: [Ordering; 8] = [
    Ordering::Less,
    Ordering::Less,
    Ordering::Less,
    Ordering::Less,
    Ordering::Equal,
    Ordering::Greater,
    Ordering::Greater,
    Ordering::Greater,
];

const BESIDE_E: [Ordering; 8] = [
    Ordering::Less,
    Ordering::Less,
    Ordering::Less,
    Ordering::Less,
    Ordering::Less,
    Ordering::Less,
    Ordering::Equal,
    Ordering::Greater,
];

#[test]
fn texts_are_ordered_beside_a_text(rt: HostRuntime) {
    let line = b"[12,\"\",\"12\",\"b\",\"\\u00621\",\"b2\",\"\\u00e9\",\"\\ud83d\\ude00\"]";
    shows(&rt, rt.alloc(), line, Shown::Beside("b1", &BESIDE_B1));
    shows(&rt, rt.alloc(), line, Shown::Beside("\u{E9}", &BESIDE_E));
}

/// Returns whether a name and its value have these numbers, and the name is found by its own.
fn are_numbered(name: Node, value: Node, of_name: u32, of_value: u32) -> bool {
    name.number() == of_name
        && value.number() == of_value
        && name.at(name.number()).bytes() == name.bytes()
}

/// Checks that the root has the number 0, and its names and values these.
fn numbers_are(rt: &impl Abort, root: Node, numbers: &[(u32, u32)]) {
    is_number(rt, root.number() as u64, 0);
    for ((name, value), (of_name, of_value)) in root.members().zip(numbers.iter()) {
        let are_right = are_numbered(name, value, *of_name, *of_value);
        holds_at(rt, are_right, name.start());
    }
}

#[test]
fn nodes_are_found_by_their_numbers(rt: HostRuntime) {
    let line = b"{\"a\":[1,[2,\"b\"]],\"c\":{\"d\":null}}";
    shows(&rt, rt.alloc(), line, Shown::Numbers(&[(1, 2), (7, 8)]));
}

const FIRST_MEMBER: [Got; 1] = [("a", Some(b"[1,2]"))];

/// Checks a copy of the line `{"a":[1,2],"b":"\u0061"}`.
fn shows_two_members(rt: &impl Abort, line: &[u8], tokens: &[Token])
    requires scanned { AreOf line.now tokens.now }
{
    let doc = Doc::of(line, tokens);
    are_bytes(rt, doc.line(), TWO_MEMBERS);
    are_got(rt, doc.root(), &FIRST_MEMBER);
    let text = doc.root().get("b").expect(rt, "a member");
    assert!(rt; text.text_is("a"));
}

const TWO_MEMBERS: &[u8] = b"{\"a\":[1,2],\"b\":\"\\u0061\"}";

#[test]
fn a_copy_is_viewed_as_the_line_was(rt: HostRuntime) -> Result<(), Fail> {
    let mut tokens = tokens_of(&rt, rt.alloc(), TWO_MEMBERS);
    let bytes = TWO_MEMBERS.to_vec(rt.alloc())?;
    let kept = tokens.as_slice().to_vec(rt.alloc())?;
    tokens.clear();
    shows_two_members(&rt, &bytes, &kept);
    Ok(())
}

/// Returns the bytes of the first item after this number of values and names.
fn first_behind<'a>(list: Node<'a>, size: u32) -> Option<&'a [u8]> {
    match list.items_behind(size).next() {
        Some(item) => Some(item.bytes()),
        None => None,
    }
}

/// Checks the size of a list, and the first item after each number of values and names.
fn are_behind(rt: &impl Abort, list: Node, size: u32, rows: &[(u32, Option<&[u8]>)]) {
    is_number(rt, list.size() as u64, size as u64);
    for (before, want) in rows {
        assert_eq!(rt; first_behind(list, *before), *want, "{before}");
    }
}

const BEHIND: [(u32, Option<&[u8]>); 6] = [
    (0, Some(b"10")),
    (1, Some(b"[20,{\"a\":30}]")),
    (6, Some(b"\"b\"")),
    (7, Some(b"[]")),
    (8, None),
    (9_000_000, None),
];

/// The sizes of the items of `[10,[20,{"a":30}],"b",[]]`, and the item after each number of values
/// and names.
#[test]
fn items_are_found_behind_others(rt: HostRuntime) {
    let line = b"[10,[20,{\"a\":30}],\"b\",[]]";
    shows(&rt, rt.alloc(), line, Shown::Behind(9, &BEHIND));
}

fn triples_are(rt: &impl Abort, items: Items, want: &[bool]) {
    let mut left = items;
    for is_triple in want {
        match left.next() {
            Some(item) => holds_at(rt, item.is_short_triple() == *is_triple, item.start()),
            None => holds_at(rt, false, 0),
        }
    }
}

/// Six triples of up to 25 bytes between the brackets, a number of 19 digits, a triple of 32 bytes,
/// one of 33, and nine other values.
const TRIPLES: [bool; 19] = [
    false, true, true, true, true, true, true, false, true, false, false, false, false, false,
    false, false, false, false, false,
];

#[test]
fn short_triples_are_told_by_their_bytes(rt: HostRuntime) {
    let line =
        b"[\"at the start of a line\",[1,2,3],[-1,0,-2],[1234567,1234567,12345],[-1234567,-1234567,-123456],[12345,123456,123456],[1,2,123456789012345678],[1234567890123456789,1,2],[12345678901,12345678901,12345678],[12345678901,12345678901,123456789],[1,2],[1,2,3,4],[1,2,3.0],[1,2,3e0],[1, 2,3],[1,2,[3]],[[1,2]],[1,2,\"3\"],{\"1\":2}]";
    shows(&rt, rt.alloc(), line, Shown::Triples(&TRIPLES));
}

/// Nothing is told of an array near the start of the line.
#[test]
fn a_triple_at_the_start_is_not_told(rt: HostRuntime) {
    shows(&rt, rt.alloc(), b"[[1,2,3]]", Shown::Triples(&[false]));
}

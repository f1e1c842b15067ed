//! Rows of tables, and what their cells spell.
//!
//! A row is a line of text with bars between its cells:
//!
//! - A stream has `&H;` for the usual header, `&F;` for the usual feature, `&lf;` for an LF, and
//!   `&255;` for the byte with this number. `feature` names the other features.
//! - A query has a word for each text, as in `id=b1 id=b2 lod=1`. A word with no text sets a part
//!   to no text at all, as in `type`. The words of `options_of` may stand beside them. `-` is no
//!   word.
//! - An outcome has the end, the lines, the kept and the refused, and the peaks.
use cj_budget::Peaks;
use cj_stream::{End, Options, Outcome, Query, QueryFault};
use cj_stream_testkit::{BEYOND, FEATURE, HEADER, SEVERAL, SMALL};
use std::alloc::{AllocError, Global};
use std::process::Abort;
use std::test::Fail;

/// A feature's main city object, and one that is not reached: 113 bytes, with 17 values and names,
/// and depth 3. The one that is not reached is at byte 78.
const APART: &[u8] =
    b"{\"type\":\"CityJSONFeature\",\"id\":\"b\",\"CityObjects\":{\"b\":{\"type\":\"Building\"},\"c\":{\"type\":\"Building\"}},\"vertices\":[]}";

/// A chain that begins at its last city object: 211 bytes, with 33 values and names, and depth 4.
const CHAIN: &[u8] =
    b"{\"type\":\"CityJSONFeature\",\"id\":\"b\",\"CityObjects\":{\"q\":{\"type\":\"BuildingPart\",\"parents\":[\"p\"]},\"p\":{\"type\":\"BuildingPart\",\"parents\":[\"b\"],\"children\":[\"q\"]},\"b\":{\"type\":\"Building\",\"children\":[\"p\"]}},\"vertices\":[]}";

/// A road of LoD 1 with only the vertex 1005, 2005. It has fewer bytes, values and names than the
/// usual feature.
const ROAD: &[u8] =
    b"{\"type\":\"CityJSONFeature\",\"id\":\"r1\",\"CityObjects\":{\"r1\":{\"type\":\"Road\",\"geometry\":[{\"type\":\"MultiPoint\",\"lod\":\"1\",\"boundaries\":[0]}]}},\"vertices\":[[5000,5000,0]]}";

/// Returns the feature with this letter.
fn feature(rt: &impl Abort, letter: &str) -> &'static [u8] {
    match letter {
        "A" => APART,
        "B" => BEYOND,
        "C" => CHAIN,
        "F" => FEATURE,
        "R" => ROAD,
        "S" => SMALL,
        "V" => SEVERAL,
        _ => panic!(rt; "no feature {letter}"),
    }
}

// ---- cells

/// Returns the first cell of a row, and the others.
pub fn cell<'a>(rt: &impl Abort, row: &'a str) -> (&'a str, &'a str) {
    row.split_once('|').expect(rt, "a cell, and others")
}

/// Adds what a name between `&` and `;` stands for.
fn push_named(rt: &impl Abort, text: &mut Vec<u8>, name: &str) -> Result<(), Fail> {
    match name {
        "H" => text.extend_from_slice(HEADER)?,
        "lf" => text.push(b'\n')?,
        _ => match name.parse() {
            Ok(byte) => text.push(byte)?,
            Err(_) => text.extend_from_slice(feature(rt, name))?,
        },
    }
    Ok(())
}

/// Adds what comes after a `&`: a name, `;`, and bytes.
fn push_part(rt: &impl Abort, text: &mut Vec<u8>, part: &str) -> Result<(), Fail> {
    let (name, rest) = part.split_once(';').expect(rt, "the end of a name");
    push_named(rt, text, name)?;
    text.extend_from_slice(rest.as_bytes())?;
    Ok(())
}

/// Returns the bytes that a cell spells.
pub fn bytes_of(rt: &impl Abort, alloc: Global, cell: &str) -> Result<Vec<u8>, Fail> {
    let mut text = Vec::new(alloc);
    for (at, part) in cell.split('&').enumerate() {
        match at {
            0 => text.extend_from_slice(part.as_bytes())?,
            _ => push_part(rt, &mut text, part)?,
        }
    }
    Ok(text)
}

/// Returns whether one of the words of a cell is this one.
pub fn has_word(cell: &str, word: &str) -> bool {
    for other in cell.split(' ') {
        if other == word {
            return true;
        }
    }
    false
}

/// Returns the options that a cell sets.
pub fn options_of(cell: &str) -> Options {
    let mut options = Options::new();
    for word in cell.split(' ') {
        options = match word {
            "going" => options.keep_going(true),
            "tree" => options.tree(true),
            "exclude" => options.exclude(true),
            "extensions" => options.extensions(true),
            "no-going" => options.keep_going(false),
            "no-tree" => options.tree(false),
            "no-exclude" => options.exclude(false),
            _ => options,
        };
    }
    options
}

// ---- queries

/// Adds a text to a part of a query, or sets the part to a list of texts.
fn add_to(
    rt: &impl Abort,
    query: &mut Query,
    part: &str,
    text: &str,
    extensions: bool,
) -> Result<(), QueryFault> {
    match part {
        "id" => query.add_id(text),
        "type" => query.add_type(text, extensions),
        "lod" => query.add_lod(text),
        "bbox" => query.bbox(text),
        "ids" => query.set_ids(text, ','),
        "types" => query.set_types(text, ',', extensions),
        "lods" => query.set_lods(text, ','),
        "ids;" => query.set_ids(text, ';'),
        _ => panic!(rt; "no part {part}"),
    }
}

/// Sets a part of a query to no text. A word for an option is no part.
fn start(rt: &impl Abort, query: &mut Query, word: &str) {
    match word {
        "id" => query.start_ids(),
        "type" => query.start_types(),
        "lod" => query.start_lods(),
        "-" | "going" | "tree" | "no-tree" | "exclude" | "extensions" => {}
        _ => panic!(rt; "no word {word}"),
    }
}

/// Does to a query what a word says. Types of extensions are known, or they are not.
pub fn ask(
    rt: &impl Abort,
    query: &mut Query,
    word: &str,
    extensions: bool,
) -> Result<(), QueryFault> {
    match word.split_once('=') {
        Some((part, text)) => add_to(rt, query, part, text, extensions),
        None => {
            start(rt, query, word);
            Ok(())
        }
    }
}

/// Returns the query of a cell.
pub fn query_of(rt: &impl Abort, alloc: Global, cell: &str) -> Result<Query, QueryFault> {
    let mut query = Query::all(alloc);
    let extensions = options_of(cell).knows_extensions();
    for word in cell.split(' ') {
        ask(rt, &mut query, word, extensions)?;
    }
    Ok(query)
}

// ---- outcomes

/// Returns an end as a text.
pub fn end_told(alloc: Global, ended: End) -> Result<String, AllocError> {
    match ended {
        End::Complete => format!(in alloc; "complete"),
        End::Refused {
            line,
            place,
            reason,
        } => format!(in alloc;
            "line {line}, byte {place}: {} {}",
            reason.code(),
            reason.text()
        ),
        end => format!(in alloc; "{end:?}"),
    }
}

/// Returns peaks as a text.
pub fn peaks_told(alloc: Global, held: Peaks) -> Result<String, AllocError> {
    format!(in alloc; "{} {} {}", held.bytes, held.tokens, held.depth)
}

/// Returns an outcome as a text.
pub fn outcome_told(alloc: Global, outcome: Outcome) -> Result<String, AllocError> {
    let (lines, kept, refused) = (outcome.lines, outcome.kept, outcome.refused);
    let ended = end_told(alloc, outcome.ended)?;
    let held = peaks_told(alloc, outcome.peaks)?;
    format!(in alloc; "{ended}|{lines}|{kept}|{refused}|{held}")
}

// ---- features on one side

/// Adds the features of `all` that `chosen` has, or the others, each with its LF. Both have the
/// features' letters. Returns how many there are.
pub fn push_side(
    rt: &impl Abort,
    text: &mut Vec<u8>,
    all: &str,
    chosen: &str,
    others: bool,
) -> Result<u64, Fail> {
    let mut count = 0_u64;
    for letter in all.split(' ') {
        if has_word(chosen, letter) != others {
            text.extend_from_slice(feature(rt, letter))?;
            text.push(b'\n')?;
            count = count.saturating_add(1);
        }
    }
    Ok(count)
}

//! Large lists, and queries of many and of long texts.
use super::calls::{check_at, check_bytes};
use cj_budget::Limits;
use cj_spans::Reason;
use cj_stream::{End, Outcome, Query};
use cj_stream_testkit::{
    FEATURE, FIRST, Reading, SlowReader, copied, held, joined, outcome, refused, written_by,
};
use std::alloc::Global;
use std::process::Abort;
use std::test::Fail;

/// Returns this number of zeros, each with a comma after it.
fn zeros(alloc: Global, count: usize) -> Result<Vec<u8>, Fail> {
    let mut zeros = Vec::new(alloc);
    for _i in 0..count {
        zeros.push(b'0')?;
        zeros.push(b',')?;
    }
    Ok(zeros)
}

/// Runs over a stream, by whole reads, and compares what was written and how it ended.
fn check_large(
    rt: &impl Abort,
    alloc: Global,
    text: &[u8],
    wanted: End,
    written: &[u8],
    row: &str,
) -> Outcome {
    let mut reader = SlowReader::new(text, 8_192);
    let (outcome, bytes) = copied(alloc, &mut reader, Limits::usual());
    check_at(rt, outcome.ended, wanted, row, 0);
    check_at(rt, bytes.len() as u64, written.len() as u64, row, 1);
    check_bytes(rt, &bytes, written, row, 2);
    outcome
}

/// A line of 8,388,608 bytes `0,`: what comes after the first value is no JSON text.
#[test]
fn zeros_without_brackets(rt: HostRuntime) -> Result<(), Fail> {
    let line = zeros(rt.alloc(), 4_194_304)?;
    let text = joined(rt.alloc(), &[FIRST, &line, b"\n"])?;
    let end = refused(2, 1, Reason::Syntax);
    let _ = check_large(&rt, rt.alloc(), &text, end, FIRST, "no brackets");
    Ok(())
}

/// Returns the feature with an attribute, a list of these zeros and one more. It has 23 bytes more,
/// and two for each zero but the last.
fn listed(alloc: Global, zeros: &[u8]) -> Result<Vec<u8>, Fail> {
    let (front, back) = (&FEATURE[..150], &FEATURE[150..]);
    Ok(joined(
        alloc,
        &[front, b",\"attributes\":{\"a\":[", zeros, b"0]}", back],
    )?)
}

/// A line of 8,388,607 bytes. In addition to the feature it has two names, an object, a list and
/// 4,194,188 zeros.
#[test]
fn zeros_in_a_list(rt: HostRuntime) -> Result<(), Fail> {
    let line = listed(rt.alloc(), &zeros(rt.alloc(), 4_194_187)?)?;
    let text = joined(rt.alloc(), &[FIRST, &line, b"\n"])?;
    let got = check_large(&rt, rt.alloc(), &text, End::Complete, &text, "a list");
    let peaks = held(8_388_747, 4_194_257, 8);
    let wanted = outcome(2, 1, peaks, End::Complete);
    check_at(&rt, got, wanted, "a list", 3);
    Ok(())
}

/// Runs over a header and a feature, and checks whether the feature is kept.
fn check_keeps(
    rt: &impl Abort,
    alloc: Global,
    feature: &[u8],
    query: &Query,
    keeps: bool,
    row: &str,
) -> Result<(), Fail> {
    let text = joined(alloc, &[FIRST, feature, b"\n"])?;
    let mut reader = SlowReader::new(&text, 8_192);
    let reading = Reading::usual(Limits::usual(), query);
    let (outcome, _) = written_by(alloc, &mut reader, &reading);
    check_at(rt, outcome.ended, End::Complete, row, 0);
    check_at(rt, outcome.kept, keeps.into(), row, 1);
    Ok(())
}

fn add_ids(query: &mut Query, id: &str, times: usize) -> Result<(), Fail> {
    for _i in 0..times {
        query.add_id(id)?;
    }
    Ok(())
}

fn add_lods(query: &mut Query, lod: &str, times: usize) -> Result<(), Fail> {
    for _i in 0..times {
        query.add_lod(lod)?;
    }
    Ok(())
}

/// The feature has the last of very many ids.
#[test]
fn by_one_of_many_ids(rt: HostRuntime) -> Result<(), Fail> {
    let mut query = Query::all(rt.alloc());
    add_ids(&mut query, "b2", 5_000)?;
    check_keeps(&rt, rt.alloc(), FEATURE, &query, false, "other ids")?;
    add_ids(&mut query, "b1", 1)?;
    check_keeps(&rt, rt.alloc(), FEATURE, &query, true, "its id")?;
    add_ids(&mut query, "b3", 5_000)?;
    check_keeps(&rt, rt.alloc(), FEATURE, &query, true, "others after it")
}

#[test]
fn by_one_of_many_lods(rt: HostRuntime) -> Result<(), Fail> {
    let mut query = Query::all(rt.alloc());
    add_lods(&mut query, "2", 5_000)?;
    check_keeps(&rt, rt.alloc(), FEATURE, &query, false, "other LoDs")?;
    add_lods(&mut query, "2.2", 1)?;
    check_keeps(&rt, rt.alloc(), FEATURE, &query, true, "its LoD")?;
    add_lods(&mut query, "3", 5_000)?;
    check_keeps(&rt, rt.alloc(), FEATURE, &query, true, "others after it")
}

/// Returns a text of this number of letters `a`, with `end` after them.
fn letters(alloc: Global, count: usize, end: &str) -> Result<String, Fail> {
    let mut text = String::new(alloc);
    for _i in 0..count {
        text.push_str("a")?;
    }
    text.push_str(end)?;
    Ok(text)
}

/// Returns a feature with this id, and an LoD of the same text.
fn named(alloc: Global, name: &str) -> Result<Vec<u8>, Fail> {
    Ok(joined(
        alloc,
        &[
            b"{\"type\":\"CityJSONFeature\",\"id\":\"",
            name.as_bytes(),
            b"\",\"CityObjects\":{\"",
            name.as_bytes(),
            b"\":{\"type\":\"Building\",\"geometry\":[{\"type\":\"MultiPoint\",\"lod\":\"",
            name.as_bytes(),
            b"\",\"boundaries\":[]}]}},\"vertices\":[]}",
        ],
    )?)
}

/// Selects a text as an id, and then as an LoD. The feature has a text of 100,000 letters as both.
fn check_long(
    rt: &impl Abort,
    alloc: Global,
    count: usize,
    end: &str,
    keeps: bool,
) -> Result<(), Fail> {
    let feature = named(alloc, &letters(alloc, 100_000, "")?)?;
    let text = letters(alloc, count, end)?;
    let mut by_id = Query::all(alloc);
    add_ids(&mut by_id, &text, 1)?;
    check_keeps(rt, alloc, &feature, &by_id, keeps, "a long id")?;
    let mut by_lod = Query::all(alloc);
    add_lods(&mut by_lod, &text, 1)?;
    check_keeps(rt, alloc, &feature, &by_lod, keeps, "a long LoD")
}

#[test]
fn by_long_texts(rt: HostRuntime) -> Result<(), Fail> {
    check_long(&rt, rt.alloc(), 100_000, "", true)?;
    check_long(&rt, rt.alloc(), 99_999, "", false)?;
    check_long(&rt, rt.alloc(), 100_001, "", false)?;
    check_long(&rt, rt.alloc(), 99_999, "b", false)
}

//! Queries of many ids: each id that was added is found, and no other.
use super::calls::check_at;
use super::rows::cell;
use cj_budget::Limits;
use cj_stream::{CountSink, End, NoReports, Query};
use cj_stream_testkit::{FIRST, Reading, SlowReader, joined, ran};
use std::alloc::Global;
use std::process::Abort;
use std::test::Fail;

/// The order in which ids are added.
#[derive(Clone, Copy)]
enum Order {
    Rising,
    Falling,
    /// In steps of 7,919, a prime, modulo their count.
    Mixed,
}

/// Returns the number that is added at a place, of `count` numbers.
fn number_at(place: u64, count: u64, order: Order) -> u64 {
    let last = count.saturating_sub(1);
    match order {
        Order::Rising => place,
        Order::Falling => last.saturating_sub(place),
        Order::Mixed => place.wrapping_mul(7_919) % count.max(1),
    }
}

/// Returns the id of a number. All ids begin alike.
fn id_of(alloc: Global, number: u64) -> Result<String, Fail> {
    Ok(format!(in alloc; "NL.IMBAG.Pand.{number}")?)
}

/// Returns a query for the ids of the first `count` odd numbers. Each is added `times` times.
fn query_of(alloc: Global, count: u64, order: Order, times: u64) -> Result<Query, Fail> {
    let mut query = Query::all(alloc);
    query.start_ids();
    for place in 0..count {
        let number = number_at(place, count, order).wrapping_mul(2);
        let id = id_of(alloc, number.wrapping_add(1))?;
        for _ in 0..times {
            query.add_id(&id)?;
        }
    }
    Ok(query)
}

/// Returns a feature with this id, as it is spelled, and an LF.
fn named(alloc: Global, id: &[u8]) -> Result<Vec<u8>, Fail> {
    Ok(joined(
        alloc,
        &[
            b"{\"type\":\"CityJSONFeature\",\"id\":\"",
            id,
            b"\",\"CityObjects\":{\"",
            id,
            b"\":{\"type\":\"Building\"}},\"vertices\":[]}\n",
        ],
    )?)
}

/// Returns a header, and a feature for each number below this.
fn stream_of(alloc: Global, numbers: u64) -> Result<Vec<u8>, Fail> {
    let mut text = FIRST.to_vec(alloc)?;
    for number in 0..numbers {
        let line = named(alloc, id_of(alloc, number)?.as_bytes())?;
        text.extend_from_slice(&line)?;
    }
    Ok(text)
}

/// Runs over a stream, and compares how many features were kept.
fn check_kept(
    rt: &impl Abort,
    alloc: Global,
    text: &[u8],
    query: &Query,
    kept: u64,
    row: &str,
) -> Result<(), Fail> {
    let mut reader = SlowReader::new(text, 8_192);
    let mut sink = CountSink {
        headers: 0,
        features: 0,
    };
    let reading = Reading::usual(Limits::usual(), query);
    let outcome = ran(alloc, &mut reader, &mut sink, &mut NoReports, &reading);
    check_at(rt, outcome.ended, End::Complete, row, kept);
    check_at(rt, sink.features, kept, row, kept);
    Ok(())
}

/// Selects `count` ids of a stream that has each of them, and one other for each.
fn check_many(
    rt: &impl Abort,
    alloc: Global,
    count: u64,
    order: Order,
    times: u64,
    row: &str,
) -> Result<(), Fail> {
    let mut query = query_of(alloc, count, order, times)?;
    let text = stream_of(alloc, count.saturating_mul(2))?;
    check_kept(rt, alloc, &text, &query, count, row)?;
    query.sort_ids();
    check_kept(rt, alloc, &text, &query, count, row)
}

#[test]
fn each_of_many_ids_is_found(rt: HostRuntime) -> Result<(), Fail> {
    for count in [
        0, 1, 2, 3, 7, 8, 9, 10, 63, 64, 65, 73, 95, 96, 97, 100, 1_000,
    ] {
        check_many(&rt, rt.alloc(), count, Order::Rising, 1, "rising")?;
        check_many(&rt, rt.alloc(), count, Order::Falling, 1, "falling")?;
        check_many(&rt, rt.alloc(), count, Order::Mixed, 1, "mixed")?;
    }
    check_many(&rt, rt.alloc(), 10_000, Order::Mixed, 1, "very many")
}

#[test]
fn ids_that_are_added_again(rt: HostRuntime) -> Result<(), Fail> {
    for times in [2, 3, 9] {
        check_many(&rt, rt.alloc(), 100, Order::Mixed, times, "again")?;
    }
    Ok(())
}

/// Selects `count` ids, sorted, and one that is added after them.
fn check_one_more(rt: &impl Abort, alloc: Global, count: u64) -> Result<(), Fail> {
    let mut query = query_of(alloc, count, Order::Falling, 1)?;
    query.sort_ids();
    query.add_id("NL.IMBAG.Pand.0")?;
    let text = stream_of(alloc, count.saturating_mul(2))?;
    check_kept(
        rt,
        alloc,
        &text,
        &query,
        count.saturating_add(1),
        "one more",
    )
}

#[test]
fn ids_that_are_added_behind_sorted_ones(rt: HostRuntime) -> Result<(), Fail> {
    for count in [40, 200] {
        check_one_more(&rt, rt.alloc(), count)?;
    }
    let text = stream_of(rt.alloc(), 80)?;
    let mut none = Query::all(rt.alloc());
    none.sort_ids();
    check_kept(&rt, rt.alloc(), &text, &none, 80, "no part on ids")
}

/// Returns the id of a number among those that end alike.
fn alike(alloc: Global, number: u64) -> Result<String, Fail> {
    Ok(format!(in alloc; "{number}.with.one.end")?)
}

/// Adds the ids that end alike of the first `count` odd numbers.
fn add_alike(alloc: Global, query: &mut Query, count: u64) -> Result<(), Fail> {
    for place in 0..count {
        let id = alike(alloc, place.wrapping_mul(2).wrapping_add(1))?;
        query.add_id(&id)?;
    }
    Ok(())
}

/// Adds a feature for each number below this. Their ids end alike.
fn extend_alike(alloc: Global, text: &mut Vec<u8>, numbers: u64) -> Result<(), Fail> {
    for number in 0..numbers {
        let line = named(alloc, alike(alloc, number)?.as_bytes())?;
        text.extend_from_slice(&line)?;
    }
    Ok(())
}

/// Selects `count` ids that end alike, sorted, together with other ids.
fn check_alike(rt: &impl Abort, alloc: Global, count: u64, others: u64) -> Result<(), Fail> {
    let mut query = query_of(alloc, others, Order::Mixed, 1)?;
    add_alike(alloc, &mut query, count)?;
    query.sort_ids();
    let mut text = stream_of(alloc, others.saturating_mul(2))?;
    extend_alike(alloc, &mut text, count.saturating_mul(2))?;
    let kept = count.saturating_add(others);
    check_kept(rt, alloc, &text, &query, kept, "alike")
}

#[test]
fn ids_that_end_alike(rt: HostRuntime) -> Result<(), Fail> {
    for (count, others) in [(100, 0), (100, 100), (31, 500), (34, 500)] {
        check_alike(&rt, rt.alloc(), count, others)?;
    }
    Ok(())
}

/// Ids with letters of one, two, three and four bytes, prefixes of others, and the empty one.
const IDS: [&str; 12] = [
    "a",
    "",
    "aaaaaaaaa",
    "aaaaaaaab",
    "aaaaaaaa",
    "é",
    "€",
    "😀",
    "ab",
    "\\u0062",
    "z",
    "\u{ffff}",
];

/// Returns a query for these ids.
fn query_of_all(alloc: Global, ids: &[&str]) -> Result<Query, Fail> {
    let mut query = Query::all(alloc);
    for id in ids {
        query.add_id(id)?;
    }
    Ok(query)
}

/// Selects the ids of `IDS`, of one feature. A row has a name, the id as it is spelled, and `kept`
/// or `left out`.
fn check_spelled(rt: &impl Abort, alloc: Global, row: &str) -> Result<(), Fail> {
    let (name, row) = cell(rt, row);
    let (spelled, answer) = cell(rt, row);
    let query = query_of_all(alloc, &IDS)?;
    let feature = named(alloc, spelled.as_bytes())?;
    let text = joined(alloc, &[FIRST, &feature])?;
    let kept = (answer == "kept").into();
    check_kept(rt, alloc, &text, &query, kept, name)
}

const SPELLED: &str = r#"
a letter|a|kept
an escaped letter|\u0061|kept
another letter|b|left out
no letter||kept
the ninth letter|aaaaaaaab|kept
the ninth letter, escaped|aaaaaaaa\u0062|kept
another ninth letter|aaaaaaaac|left out
seven letters|aaaaaaa|left out
ten letters|aaaaaaaaaa|left out
two bytes|é|kept
two bytes, escaped|\u00e9|kept
another form of it|e\u0301|left out
three bytes, escaped|\u20AC|kept
four bytes|😀|kept
a pair of surrogates|\ud83d\ude00|kept
half of a pair|\ud83d|left out
a backslash|\\u0062|kept
below a pair by code units alone|\uffff|kept
"#;

#[test]
fn ids_however_they_are_spelled(rt: HostRuntime) -> Result<(), Fail> {
    for row in SPELLED.trim().lines() {
        check_spelled(&rt, rt.alloc(), row)?;
    }
    Ok(())
}

//! Limits in range, and limits that are declined.
use super::checks::{check_named, check_same};
use cj_budget::{LimitFault, Limits, Peaks, USUAL_DEPTH, USUAL_LINE};
use std::process::Abort;

#[derive(Drop)]
struct Row {
    name: &'static str,
    line: u64,
    depth: u64,
    fault: Option<LimitFault>,
}

/// Compares limits that were made with the numbers of a row.
fn check_made(rt: &impl Abort, limits: Limits, row: &Row) {
    check_named(rt, row.fault, None, row.name);
    check_number(rt, limits.line(), row.line);
    check_number(rt, limits.depth(), row.depth);
}

/// Compares numbers.
fn check_number(rt: &impl Abort, got: u64, wanted: u64) {
    check_same(rt, got, wanted);
}

/// Compares a fault with that of a row.
fn check_fault(rt: &impl Abort, fault: LimitFault, row: &Row) {
    check_named(rt, row.fault, Some(fault), row.name);
}

/// Makes the limits of each row, and compares the result.
fn check(rt: &impl Abort, rows: &[Row]) {
    for row in rows {
        match Limits::new(row.line, row.depth) {
            Ok(limits) => check_made(rt, limits, row),
            Err(fault) => check_fault(rt, fault, row),
        }
    }
}

#[test]
fn limits_are_declined_in_order(rt: HostRuntime) {
    let rows = [
        Row {
            name: "both too small or great",
            line: 0,
            depth: 1_025,
            fault: Some(LimitFault::LineLimit),
        },
        Row {
            name: "depth too great",
            line: 1,
            depth: 1_025,
            fault: Some(LimitFault::DepthLimit),
        },
        Row {
            name: "depth zero",
            line: 1,
            depth: 0,
            fault: Some(LimitFault::DepthLimit),
        },
        Row {
            name: "line too great",
            line: 1_073_741_825,
            depth: 64,
            fault: Some(LimitFault::LineLimit),
        },
    ];
    check(&rt, &rows);
}

#[test]
fn limits_in_range_are_kept(rt: HostRuntime) {
    let rows = [
        Row {
            name: "least",
            line: 1,
            depth: 1,
            fault: None,
        },
        Row {
            name: "greatest",
            line: 1_073_741_824,
            depth: 1_024,
            fault: None,
        },
    ];
    check(&rt, &rows);
}

/// Makes the usual limits by their numbers, and compares them.
fn check_usual(rt: &impl Abort, usual: Limits) {
    check_same(rt, Limits::new(USUAL_LINE, USUAL_DEPTH), Ok(usual));
}

#[test]
fn the_usual_limits(rt: HostRuntime) {
    let usual = Limits::usual();
    check_number(&rt, usual.line(), 8_388_608);
    check_number(&rt, usual.depth(), 64);
    check_usual(&rt, usual);
}

#[test]
fn no_peaks(rt: HostRuntime) {
    check_same(
        &rt,
        Peaks::default(),
        Peaks {
            bytes: 0,
            tokens: 0,
            depth: 0,
        },
    );
}

//! Rows of findings, each with its least one.
use super::checks::{check_named, check_same};
use cj_spans::{Finding, Least, Reason};
use std::process::Abort;

const MISSING_AT_5: Finding = Finding {
    place: 5,
    reason: Reason::MissingMember,
};

const KIND_AT_5: Finding = Finding {
    place: 5,
    reason: Reason::WrongKind,
};

const NOT_EMPTY_AT_5: Finding = Finding {
    place: 5,
    reason: Reason::NotEmpty,
};

const NO_HEADER_AT_6: Finding = Finding {
    place: 6,
    reason: Reason::NoHeader,
};

const KIND_AT_6: Finding = Finding {
    place: 6,
    reason: Reason::WrongKind,
};

const INDEX_AT_47: Finding = Finding {
    place: 47,
    reason: Reason::VertexIndex,
};

const TRANSFORM_AT_0: Finding = Finding {
    place: 0,
    reason: Reason::TransformNotFixed,
};

/// Returns the least of these findings, added in this order.
fn least_of(findings: &[Finding]) -> Option<Finding> {
    let mut least = Least::new();
    for found in findings {
        least.add(*found);
    }
    least.get()
}

fn meets(rt: &impl Abort, name: &str, findings: &[Finding], want: Option<Finding>) {
    check_named(rt, least_of(findings), want, name);
}

/// The name of a row, its findings, and the least one.
const ROWS: [(&str, &[Finding], Option<Finding>); 9] = [
    ("none", &[], None),
    ("one", &[INDEX_AT_47], Some(INDEX_AT_47)),
    (
        "a later place does not count",
        &[KIND_AT_5, INDEX_AT_47],
        Some(KIND_AT_5),
    ),
    (
        "an earlier place counts",
        &[INDEX_AT_47, KIND_AT_5],
        Some(KIND_AT_5),
    ),
    (
        "at one place the lesser code counts",
        &[KIND_AT_5, MISSING_AT_5],
        Some(MISSING_AT_5),
    ),
    (
        "at one place the greater code does not",
        &[MISSING_AT_5, KIND_AT_5],
        Some(MISSING_AT_5),
    ),
    (
        "the place goes before the code",
        &[MISSING_AT_5, TRANSFORM_AT_0, INDEX_AT_47],
        Some(TRANSFORM_AT_0),
    ),
    (
        "another order",
        &[TRANSFORM_AT_0, INDEX_AT_47, MISSING_AT_5],
        Some(TRANSFORM_AT_0),
    ),
    ("twice the same", &[KIND_AT_5, KIND_AT_5], Some(KIND_AT_5)),
];

#[test]
fn the_least_of_what_was_added(rt: HostRuntime) {
    for (name, findings, want) in &ROWS {
        meets(&rt, name, findings, *want);
    }
}

fn is_less(rt: &impl Abort, first: Finding, second: Finding) {
    assert!(rt; first < second, "{first:?}");
}

fn is_at_most(rt: &impl Abort, first: Finding, second: Finding) {
    assert!(rt; first <= second, "{first:?}");
}

fn is_the_same(rt: &impl Abort, first: Finding, second: Finding) {
    check_same(rt, first, second);
}

fn is_another(rt: &impl Abort, first: Finding, second: Finding) {
    assert_ne!(rt; first, second);
}

#[test]
fn findings_are_ordered_by_place_and_code(rt: HostRuntime) {
    is_less(&rt, KIND_AT_5, NO_HEADER_AT_6);
    is_less(&rt, MISSING_AT_5, KIND_AT_5);
    is_at_most(&rt, KIND_AT_5, KIND_AT_5);
    is_the_same(&rt, KIND_AT_5, KIND_AT_5);
    is_another(&rt, KIND_AT_5, NOT_EMPTY_AT_5);
    is_another(&rt, KIND_AT_5, KIND_AT_6);
}

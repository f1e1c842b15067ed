//! Lists that are filled, emptied and reserved.
use super::checks::check_same;
use cj_budget::{Bounded, ExtendFault, NoMemory, Refused};
use std::process::Abort;

/// Adds an element, and compares the answer.
fn check_push(rt: &impl Abort, list: &mut Bounded<u8>, x: u8, wanted: Result<(), Refused<u8>>) {
    check_same(rt, list.push(x), wanted);
}

/// Adds an element where there is room for it.
fn push(rt: &impl Abort, list: &mut Bounded<u8>, x: u8) {
    check_push(rt, list, x, Ok(()));
}

/// Adds an element by the call that checks no limit.
fn put(rt: &impl Abort, list: &mut Bounded<u8>, x: u8) {
    assert!(rt; list.len() < list.limit());
    check_same(rt, list.put(x), Ok(()));
}

/// Adds a slice, and compares the answer.
fn check_extend(
    rt: &impl Abort,
    list: &mut Bounded<u8>,
    xs: &[u8],
    wanted: Result<(), ExtendFault>,
) {
    check_same(rt, list.extend_from_slice(xs), wanted);
}

/// Adds a slice where there is room for it.
fn extend(rt: &impl Abort, list: &mut Bounded<u8>, xs: &[u8]) {
    check_extend(rt, list, xs, Ok(()));
}

/// Compares the elements.
fn check_items(rt: &impl Abort, list: &Bounded<u8>, wanted: &[u8]) {
    check_same(rt, list.as_slice(), wanted);
}

/// Compares lengths.
fn check_length(rt: &impl Abort, got: usize, wanted: usize) {
    check_same(rt, got, wanted);
}

/// Compares the length and the peak of a list.
fn check_lengths(rt: &impl Abort, list: &Bounded<u8>, length: usize, peak: usize) {
    check_length(rt, list.len(), length);
    check_length(rt, list.peak(), peak);
    check_empty(rt, list, length == 0);
}

/// Compares whether a list is empty.
fn check_empty(rt: &impl Abort, list: &Bounded<u8>, wanted: bool) {
    check_same(rt, list.is_empty(), wanted);
}

/// Compares whether a list has memory for all elements that its limit allows.
fn check_reserved(rt: &impl Abort, list: &Bounded<u8>, wanted: bool) {
    check_same(rt, list.is_reserved(), wanted);
}

/// Reserves memory for all elements that the limit allows.
fn reserve_all(rt: &impl Abort, list: &mut Bounded<u8>) {
    check_same(rt, list.reserve_all(), Ok(()));
}

/// Reserves memory in a list that has too little for its limit.
fn reserve(rt: &impl Abort, list: &mut Bounded<u8>) {
    check_reserved(rt, list, false);
    reserve_all(rt, list);
    check_reserved(rt, list, true);
}

/// Adds an element with the form that cannot fail.
fn push_reserved(rt: &impl Abort, list: &mut Bounded<u8>, x: u8) {
    assert!(rt; list.is_reserved() && list.len() < list.limit());
    list.push_reserved(x);
}

/// Adds a slice with the form that cannot fail.
fn extend_reserved(rt: &impl Abort, list: &mut Bounded<u8>, xs: &[u8]) {
    assert!(rt; list.is_reserved() && xs.len() <= list.limit() - list.len());
    list.extend_reserved(xs);
}

/// Adds an element and a slice to a full list: both are refused.
fn check_full(rt: &impl Abort, list: &mut Bounded<u8>) {
    check_push(rt, list, 3, Err(Refused::Full(3)));
    check_extend(rt, list, &[4], Err(ExtendFault::Full));
}

#[test]
fn a_list_of_two(rt: HostRuntime) {
    let mut list: Bounded<u8> = Bounded::new(rt.alloc(), 2);
    check_empty(&rt, &list, true);
    push(&rt, &mut list, 1);
    push(&rt, &mut list, 2);
    check_full(&rt, &mut list);
    check_lengths(&rt, &list, 2, 2);
    check_items(&rt, &list, &[1, 2]);
    list.clear();
    check_lengths(&rt, &list, 0, 2);
    check_length(&rt, list.limit(), 2);
    reserve_all(&rt, &mut list);
    extend(&rt, &mut list, &[5, 6]);
    check_items(&rt, &list, &[5, 6]);
    check_empty(&rt, &list, false);
}

#[test]
fn a_list_that_is_not_full(rt: HostRuntime) {
    let mut list: Bounded<u8> = Bounded::new(rt.alloc(), 2);
    put(&rt, &mut list, 1);
    put(&rt, &mut list, 2);
    check_push(&rt, &mut list, 3, Err(Refused::Full(3)));
    check_lengths(&rt, &list, 2, 2);
    list.clear();
    put(&rt, &mut list, 4);
    check_lengths(&rt, &list, 1, 2);
    check_items(&rt, &list, &[4]);
}

#[test]
fn a_list_that_is_reserved_after_use(rt: HostRuntime) {
    let mut list: Bounded<u8> = Bounded::new(rt.alloc(), 2);
    extend(&rt, &mut list, &[1, 2]);
    list.clear();
    reserve_all(&rt, &mut list);
    extend(&rt, &mut list, &[3, 4]);
    check_items(&rt, &list, &[3, 4]);
}

#[test]
fn a_list_of_two_that_is_reserved_first(rt: HostRuntime) {
    let mut list: Bounded<u8> = Bounded::new(rt.alloc(), 2);
    reserve(&rt, &mut list);
    push_reserved(&rt, &mut list, 1);
    push_reserved(&rt, &mut list, 2);
    check_full(&rt, &mut list);
    check_lengths(&rt, &list, 2, 2);
    list.clear();
    check_lengths(&rt, &list, 0, 2);
    reserve_all(&rt, &mut list);
    extend_reserved(&rt, &mut list, &[5, 6]);
    check_full(&rt, &mut list);
    check_items(&rt, &list, &[5, 6]);
}

#[test]
fn a_list_that_is_reserved_by_the_way(rt: HostRuntime) {
    let mut list: Bounded<u8> = Bounded::new(rt.alloc(), 100);
    push(&rt, &mut list, 1);
    reserve(&rt, &mut list);
    push_reserved(&rt, &mut list, 2);
    extend_reserved(&rt, &mut list, &[3, 4]);
    extend_reserved(&rt, &mut list, &[]);
    check_items(&rt, &list, &[1, 2, 3, 4]);
    check_lengths(&rt, &list, 4, 4);
}

#[test]
fn a_list_that_keeps_its_room(rt: HostRuntime) {
    let mut list: Bounded<u8> = Bounded::new(rt.alloc(), 100);
    reserve(&rt, &mut list);
    extend_reserved(&rt, &mut list, &[7; 100]);
    check_extend(&rt, &mut list, &[8], Err(ExtendFault::Full));
    list.clear();
    check_reserved(&rt, &list, true);
    reserve_all(&rt, &mut list);
}

#[test]
fn one_element_is_replaced(rt: HostRuntime) {
    let mut list: Bounded<u8> = Bounded::new(rt.alloc(), 3);
    extend(&rt, &mut list, &[7, 8, 9]);
    replace(&rt, &mut list, 1, 5);
    check_items(&rt, &list, &[7, 5, 9]);
    check_lengths(&rt, &list, 3, 3);
    check_length(&rt, list.limit(), 3);
}

/// Replaces an element.
fn replace(rt: &impl Abort, list: &mut Bounded<u8>, at: usize, x: u8) {
    assert!(rt; at < list.len());
    list.set(at, x);
}

/// Adds a number to a list of eight bytes a number.
fn push_wide(rt: &impl Abort, list: &mut Bounded<u64>, x: u64) {
    check_same(rt, list.push(x), Ok(()));
}

/// Reserves memory that no machine has.
fn check_no_room(rt: &impl Abort, list: &mut Bounded<u64>) {
    check_same(rt, list.reserve_all(), Err(NoMemory));
}

/// Compares the numbers of a list that has too little memory for its limit.
fn check_kept(rt: &impl Abort, list: &Bounded<u64>, wanted: &[u64]) {
    assert!(rt; !list.is_reserved());
    check_same(rt, list.as_slice(), wanted);
}

#[test]
fn a_list_whose_room_no_machine_has(rt: HostRuntime) {
    let mut list: Bounded<u64> = Bounded::new(rt.alloc(), usize::MAX);
    push_wide(&rt, &mut list, 1);
    check_no_room(&rt, &mut list);
    check_kept(&rt, &list, &[1]);
}

//! Stacks in their inline room, past it, and past what a machine has.
use super::checks::check_same;
use cj_budget::{NoMemory, Refused, Stack};
use std::process::Abort;

/// Pushes an item, and compares the answer.
fn check_push(rt: &impl Abort, stack: &mut Stack, item: u32, wanted: Result<(), Refused<u32>>) {
    check_same(rt, stack.push(item), wanted);
}

/// Pushes an item where there is room for it.
fn push(rt: &impl Abort, stack: &mut Stack, item: u32) {
    check_push(rt, stack, item, Ok(()));
}

/// Pushes an item on a full stack, which refuses it.
fn check_full(rt: &impl Abort, stack: &mut Stack, item: u32) {
    check_push(rt, stack, item, Err(Refused::Full(item)));
}

/// Pushes with the form that cannot fail.
fn push_reserved(rt: &impl Abort, stack: &mut Stack, item: u32) {
    assert!(rt; stack.is_reserved() && stack.len() < stack.limit());
    stack.push_reserved(item);
}

/// Pushes and pops an item with the form that does not store it.
fn push_and_pop(rt: &impl Abort, stack: &mut Stack) {
    assert!(rt; stack.is_reserved() && stack.len() < stack.limit());
    stack.push_and_pop();
}

/// Pops an item, and compares it.
fn check_pop(rt: &impl Abort, stack: &mut Stack, wanted: Option<u32>) {
    check_same(rt, stack.pop(), wanted);
}

/// Compares the item on top.
fn check_top(rt: &impl Abort, stack: &Stack, wanted: Option<u32>) {
    check_same(rt, stack.top(), wanted);
}

/// Compares lengths.
fn check_length(rt: &impl Abort, got: usize, wanted: usize) {
    check_same(rt, got, wanted);
}

/// Compares the length and the peak of a stack.
fn check_lengths(rt: &impl Abort, stack: &Stack, length: usize, peak: usize) {
    check_length(rt, stack.len(), length);
    check_length(rt, stack.peak(), peak);
    check_empty(rt, stack, length == 0);
}

/// Compares whether a stack is empty.
fn check_empty(rt: &impl Abort, stack: &Stack, wanted: bool) {
    check_same(rt, stack.is_empty(), wanted);
}

/// Compares whether a stack has room for all items that its limit allows.
fn check_reserved(rt: &impl Abort, stack: &Stack, wanted: bool) {
    check_same(rt, stack.is_reserved(), wanted);
}

/// Reserves room for all items that the limit allows, and compares the answer.
fn check_reserve(rt: &impl Abort, stack: &mut Stack, wanted: Result<(), NoMemory>) {
    check_same(rt, stack.reserve_all(), wanted);
}

/// Pops the items below this number, the greatest first.
fn pop_all(rt: &impl Abort, stack: &mut Stack, count: u32) {
    for item in (0..count).rev() {
        check_pop(rt, stack, Some(item));
    }
}

#[test]
fn a_stack_of_one(rt: HostRuntime) {
    let mut stack = Stack::new(rt.alloc(), 1);
    check_empty(&rt, &stack, true);
    check_pop(&rt, &mut stack, None);
    push(&rt, &mut stack, 4);
    check_full(&rt, &mut stack, 5);
    check_top(&rt, &stack, Some(4));
    check_lengths(&rt, &stack, 1, 1);
    check_pop(&rt, &mut stack, Some(4));
    check_top(&rt, &stack, None);
    check_lengths(&rt, &stack, 0, 1);
    push(&rt, &mut stack, 6);
    stack.clear();
    check_lengths(&rt, &stack, 0, 1);
    check_length(&rt, stack.limit(), 1);
}

#[test]
fn a_stack_past_its_inline_room(rt: HostRuntime) {
    let mut stack = Stack::new(rt.alloc(), 100);
    for item in 0..100u32 {
        push(&rt, &mut stack, item);
    }
    check_full(&rt, &mut stack, 100);
    check_lengths(&rt, &stack, 100, 100);
    pop_all(&rt, &mut stack, 100);
    check_lengths(&rt, &stack, 0, 100);
}

#[test]
fn a_stack_whose_room_no_machine_has(rt: HostRuntime) {
    let mut stack = Stack::new(rt.alloc(), usize::MAX);
    push(&rt, &mut stack, 1);
    check_reserve(&rt, &mut stack, Err(NoMemory));
    check_reserved(&rt, &stack, false);
    check_pop(&rt, &mut stack, Some(1));
}

#[test]
fn a_stack_that_needs_no_room(rt: HostRuntime) {
    let mut one = Stack::new(rt.alloc(), 1);
    check_reserved(&rt, &one, true);
    check_reserve(&rt, &mut one, Ok(()));
    push_reserved(&rt, &mut one, 4);
    check_full(&rt, &mut one, 5);
    check_reserve(&rt, &mut one, Ok(()));
    check_pop(&rt, &mut one, Some(4));
    check_lengths(&rt, &one, 0, 1);
}

#[test]
fn the_usual_stack_needs_no_room(rt: HostRuntime) {
    check_reserved(&rt, &Stack::new(rt.alloc(), 64), true);
}

#[test]
fn a_stack_that_is_reserved(rt: HostRuntime) {
    let mut stack = Stack::new(rt.alloc(), 1_024);
    check_reserved(&rt, &stack, false);
    push(&rt, &mut stack, 0);
    check_reserve(&rt, &mut stack, Ok(()));
    for item in 1..1_024u32 {
        push_reserved(&rt, &mut stack, item);
    }
    check_full(&rt, &mut stack, 1_024);
    check_top(&rt, &stack, Some(1_023));
    check_lengths(&rt, &stack, 1_024, 1_024);
    pop_all(&rt, &mut stack, 1_024);
    stack.clear();
    check_reserved(&rt, &stack, true);
}

#[test]
fn an_item_that_is_not_stored(rt: HostRuntime) {
    let mut stack = Stack::new(rt.alloc(), 2);
    push_and_pop(&rt, &mut stack);
    check_lengths(&rt, &stack, 0, 1);
    push(&rt, &mut stack, 4);
    push_and_pop(&rt, &mut stack);
    push_and_pop(&rt, &mut stack);
    check_lengths(&rt, &stack, 1, 2);
    check_top(&rt, &stack, Some(4));
}

#[test]
fn a_stack_that_has_grown_is_reserved(rt: HostRuntime) {
    let mut stack = Stack::new(rt.alloc(), 200);
    for item in 0..70u32 {
        push(&rt, &mut stack, item);
    }
    check_reserve(&rt, &mut stack, Ok(()));
    check_reserved(&rt, &stack, true);
    check_lengths(&rt, &stack, 70, 70);
    pop_all(&rt, &mut stack, 70);
}

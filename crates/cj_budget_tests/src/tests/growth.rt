//! Whether growths failed.
use super::checks::check_same;
use cj_budget::{NoMemory, Refusals};
use std::process::Abort;

/// Notes the answer of a growth, and compares what is passed on.
fn check_note(rt: &impl Abort, failed_growths: &mut Refusals, answer: Result<(), NoMemory>) {
    let wanted = answer.is_ok();
    check_same(rt, failed_growths.note(answer).is_ok(), wanted);
}

#[test]
fn answers_of_growths_are_noted(rt: HostRuntime) {
    let mut failed_growths = Refusals::none();
    check_note(&rt, &mut failed_growths, Ok(()));
    check_note(&rt, &mut failed_growths, Err(NoMemory));
}

#[test]
fn one_lack_of_memory_is_like_another(rt: HostRuntime) {
    check_same(&rt, NoMemory, NoMemory);
}

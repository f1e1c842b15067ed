//! Runs of questions: those on one first text stand one after another.
ghost use Rattle.std.specs.Prelude.{◌≡◌, ◌+◌, ◌≤◌, ◌<◌, IfSome, length};
ghost use Rattle.cj_spans.specs.View.{tree};
ghost use Rattle.cj_feature.specs.inner.Questions.{noted_in, IsQuestion};

use crate::feature::search::hashed::Text;
use crate::feature::search::noted::Noted;
use crate::feature::search::questions::order::{Pair, Question, question_at};
use cj_spans::Node;

/// A range of places of questions. The first ones are on one first text. If they are not, less is
/// found.
#[derive(Clone, Copy)]
pub struct Run {
    first: usize,
    end: usize,
}

/// The run of a text that was not looked up.
pub const NO_RUN: Run = Run { first: 0, end: 0 };

/// Returns the run of questions on a text. The first question is at `first`.
pub fn run_on(objects: Node, questions: &[Question], from: Text, first: usize) -> Run
    requires { first < length questions.now }
{
    let rest = &questions[first..];
    let mut length = 1;
    while length < rest.len() && rest[length].from.is(from, objects) {
        length *= 2;
    }
    let most = length.min(rest.len());
    let count = rest[..most].partition_point(|question| question.from.is(from, objects));
    Run {
        first,
        end: first + count,
    }
}

/// Returns how many questions, or their flags, come before a run, and those of the run.
fn part_of<T>(all: &[T], run: Run) -> (usize, &[T])
    ensures { result.0 + length result.1.now ≤ length all.now }
{
    let end = run.end.min(all.len());
    let first = run.first.min(end);
    (first, &all[first..end])
}

/// Returns how many questions of a run have no flag.
pub fn count_unlisted(flags: &[bool], run: Run) -> usize {
    let (_, part) = part_of(flags, run);
    let mut count = 0;
    for flag in part {
        if !*flag {
            count += 1;
        }
    }
    count
}

/// Returns whether a flag is set.
fn is_set(flags: &[bool], place: usize) -> bool {
    place < flags.len() && flags[place]
}

/// Returns the place of the question on these texts, if it is in a run and has no flag. So if a
/// pair is listed many times, its first text is read once.
pub fn find_unlisted(
    objects: Node,
    questions: &[Question],
    flags: &[bool],
    run: Run,
    pair: Pair,
) -> Option<usize>
    ensures { IfSome result
        (IsQuestion objects.entry questions.now (tree pair.entry.from.node) (tree pair.entry.to.node)) }
{
    let (first, part) = part_of(questions, run);
    let place = first + part.partition_point(|one| one.to.compare_with(pair.to, objects).is_lt());
    if is_set(flags, place) {
        return None;
    }
    let question = question_at(questions, place)?;
    if question.to.is(pair.to, objects) && question.from.is(pair.from, objects) {
        Some(place)
    } else {
        None
    }
}

/// Returns the place of the question on these texts, if it is in a run. The second text is a noted
/// one.
pub fn find_noted(
    objects: Node,
    questions: &[Question],
    run: Run,
    from: Text,
    to: Noted,
) -> Option<usize>
    ensures { IfSome result
        (IsQuestion objects.entry questions.now (tree from.entry.node) (noted_in objects.entry to)) }
{
    let (first, part) = part_of(questions, run);
    let place = first + part.partition_point(|one| one.to.compare(to, objects).is_lt());
    let question = question_at(questions, place)?;
    if question.from.is(from, objects) && question.to.is_same(to, objects) {
        Some(place)
    } else {
        None
    }
}

//! The order of questions: by their first texts, and then by their second ones.
ghost use Rattle.std.specs.Prelude.{◌≡◌, ℕ, Some, IfSome, slice_get};
ghost use Rattle.std.specs.Ordering.{is_lt};
ghost use Rattle.cj_spans.specs.View.{tree};
ghost use Rattle.cj_feature.specs.inner.Questions.{pair_key, key_in, compare_keys, AreQuestionsInOrder, IsPlaceOf};
ghost use Rattle.cj_feature.specs.inner.Questions.{IsFirstOn};

use crate::feature::search::hashed::Text;
use crate::feature::search::noted::Noted;
use cj_spans::Node;
use std::cmp::Ordering;

/// A question: whether some city object of the name `from` lists `to`.
#[derive(Clone, Copy)]
pub struct Question {
    pub from: Noted,
    pub to: Noted,
}

/// The two texts of a question that is looked up.
#[derive(Clone, Copy)]
pub struct Pair<'a> {
    pub from: Text<'a>,
    pub to: Text<'a>,
}

/// Compares two questions: by their first texts, and then by their second ones.
pub fn compare(objects: Node, first: Question, second: Question) -> Ordering
    ensures { result ≡ compare_keys (key_in objects.entry first) (key_in objects.entry second) }
{
    match first.from.compare(second.from, objects) {
        Ordering::Equal => first.to.compare(second.to, objects),
        order => order,
    }
}

/// Returns whether a question comes before these texts.
fn is_before(objects: Node, question: Question, pair: Pair) -> bool
    ensures { result ≡ is_lt (compare_keys (key_in objects.entry question) (pair_key pair.entry)) }
{
    match question.from.compare_with(pair.from, objects) {
        Ordering::Equal => question.to.compare_with(pair.to, objects).is_lt(),
        order => order.is_lt(),
    }
}

/// Sorts questions.
pub fn sort(objects: Node, questions: &mut [Question])
    ensures { AreQuestionsInOrder objects.entry questions.new }
{
    questions.sort_unstable_by(|a, b| compare(objects, *a, *b));
}

/// Returns how many questions come before these texts.
fn place_of(objects: Node, questions: &[Question], pair: Pair) -> usize
    requires { AreQuestionsInOrder objects questions.now }
    ensures { IsPlaceOf objects.entry (pair_key pair.entry) questions.now result }
{
    questions.partition_point(|question| is_before(objects, *question, pair))
}

/// Returns the question at a place, if there is one.
pub fn question_at(questions: &[Question], place: usize) -> Option<Question>
    ensures { slice_get questions.now place ≡ result }
{
    if place < questions.len() {
        Some(questions[place])
    } else {
        None
    }
}

/// Returns the place of the first question on a text, if there is one. A node that is no text comes
/// before all texts. So the city objects serve as a second text before all others.
pub fn first_on(objects: Node, questions: &[Question], from: Text) -> Option<usize>
    requires { AreQuestionsInOrder objects questions.now }
    ensures first { IfSome result (IsFirstOn objects.entry questions.now (tree from.entry.node)) }
    ensures only { (i : ℕ) → IsFirstOn objects.entry questions.now (tree from.entry.node) i → result ≡ Some i }
{
    let to = Text::of(objects);
    let place = place_of(objects, questions, Pair { from, to });
    match question_at(questions, place) {
        Some(question) if question.from.is(from, objects) => Some(place),
        _ => None,
    }
}

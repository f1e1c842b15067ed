//! What is asked next. Questions are noted until the array is full, and sorted. Repeated ones are
//! removed, and if most were repeated, more are noted.
//!
//! This is only a guess from the lists that follow, and no answer depends on the guess.
ghost use Rattle.std.specs.Prelude.{◌≡◌, ◌<◌, ◌≤◌, length, take};
ghost use Rattle.cj_feature.specs.inner.Questions.{AreQuestionsInOrder};

use crate::feature::search::link::Link;
use crate::feature::search::noted::Noted;
use crate::feature::search::questions::order::{Question, compare, sort};
use crate::feature::search::questions::wanted::place_among;
use cj_spans::{Items, Members, Node};

/// What is asked next. First come the remaining items of the list of a city object of this name.
/// The lists of later city objects follow.
#[derive(Clone, Copy)]
pub struct Ahead<'a> {
    pub link: Link,
    pub name: Noted,
    pub items: Items<'a>,
    pub later: Members<'a>,
}

/// Returns whether two questions are on the same texts.
fn are_same(objects: Node, first: Question, second: Question) -> bool {
    compare(objects, first, second).is_eq()
}

/// Removes repeated questions from sorted ones. Returns how many are kept, before the others.
fn take_out_repeated(objects: Node, questions: &mut [Question]) -> usize
    ensures few { result ≤ length questions.new }
    ensures length { length questions.new ≡ length questions.old }
    ensures order { AreQuestionsInOrder objects.entry questions.old
        → AreQuestionsInOrder objects.entry (take result questions.new) }
{
    let mut kept = 0;
    for i in 0..questions.len() {
        if kept == 0 || !are_same(objects, questions[kept - 1], questions[i]) {
            questions[kept] = questions[i];
            kept += 1;
        }
    }
    kept
}

/// Sorts questions, and removes repeated ones. Returns how many are kept, before the others.
pub fn gather(objects: Node, questions: &mut [Question]) -> usize
    ensures few { result ≤ length questions.new }
    ensures length { length questions.new ≡ length questions.old }
    ensures order { AreQuestionsInOrder objects.entry (take result questions.new) }
{
    sort(objects, questions);
    take_out_repeated(objects, questions)
}

/// Removes repeated questions from a full array, if at least half are repeated. Returns how many
/// are noted then. With less to gain, another sort would cost more than a walk.
fn make_room(objects: Node, questions: &mut [Question], count: usize) -> usize
    requires { count ≤ length questions.old }
    ensures few { result ≤ length questions.new }
    ensures length { length questions.new ≡ length questions.old }
{
    if count < questions.len() {
        return count;
    }
    let kept = gather(objects, questions);
    if kept <= questions.len() / 2 {
        kept
    } else {
        count
    }
}

/// One of two bytes is multiplied by this prime before they are added. So the 3,844 pairs of
/// letters and digits have 3,254 different sums.
const WEIGHT: u64 = 61;

/// Returns where a text is kept, from its short hash and the bytes in its middle. So even most
/// texts that were chosen to have one short hash have different places. Another spelling of a text
/// has another place.
pub fn hand_of<const KEPT: usize>(node: Node, short_hash: u32) -> usize
    requires { 0 < KEPT }
    ensures { result < KEPT }
{
    let bytes = node.bytes();
    let middle = bytes[bytes.len() / 2] as u64 + WEIGHT * bytes[(bytes.len() - 1) / 2] as u64;
    place_among::<KEPT>(short_hash as u64 + middle)
}

/// Notes the text of a node, by the kept node with the same text if there is one. So most equal
/// texts have one number.
fn noted_at_hand<const KEPT: usize>(objects: Node, kept: &mut [Noted; KEPT], node: Node) -> Noted
    requires { 0 < KEPT }
{
    let noted = Noted::of(node);
    let place = hand_of::<KEPT>(node, noted.short_hash);
    let before = kept[place];
    if before.short_hash == noted.short_hash && before.node(objects).same_text(node) {
        return before;
    }
    kept[place] = noted;
    noted
}

/// Notes a question after the first `count`. Returns how many there are then.
fn note(questions: &mut [Question], count: usize, question: Question) -> usize
    requires { count < length questions.old }
    ensures few { result ≤ length questions.new }
    ensures length { length questions.new ≡ length questions.old }
{
    questions[count] = question;
    count + 1
}

/// Notes the questions on these items of a city object's list, until the array is full. Returns how
/// many there are then.
///
/// It takes the texts one by one, since only the questions change.
fn note_items<const KEPT: usize>(
    objects: Node,
    questions: &mut [Question],
    count: usize,
    kept: &mut [Noted; KEPT],
    items: Items,
    to: Noted,
) -> usize
    requires count { count ≤ length questions.old }
    requires kept { 0 < KEPT }
    ensures few { result ≤ length questions.new }
    ensures length { length questions.new ≡ length questions.old }
{
    let mut next = count;
    for item in items {
        next = make_room(objects, questions, next);
        if next == questions.len() {
            return next;
        }
        let from = noted_at_hand(objects, kept, item);
        next = note(questions, next, Question { from, to });
    }
    next
}

/// Notes a question and the next ones, until the array is full. Returns how many there are then.
pub fn note_ahead<const KEPT: usize>(
    objects: Node,
    questions: &mut [Question],
    kept: &mut [Noted; KEPT],
    item: Node,
    ahead: Ahead,
) -> usize
    requires questions { 0 < length questions.old }
    requires kept { 0 < KEPT }
    ensures { result ≤ length questions.new }
{
    let asked = ahead.link.list();
    let (from, to) = (noted_at_hand(objects, kept, item), ahead.name);
    let first = note(questions, 0, Question { from, to });
    let mut count = note_items(objects, questions, first, kept, ahead.items, to);
    for (name, object) in ahead.later {
        count = make_room(objects, questions, count);
        if count == questions.len() {
            return count;
        }
        if let Some(value) = object.get(asked) {
            let name = Noted::of(name);
            count = note_items(objects, questions, count, kept, value.items(), name);
        }
    }
    count
}

//! Questions on links. Is a text the name of a city object, and does one of that name list another
//! text? One walk over the city objects answers many questions.
//!
//! The next questions are noted and sorted (`gathering.rt`). Then a walk looks up each name among
//! the questions by binary search. It looks up each item of the name's list among the questions on
//! that name. So n links take at most n / `ROOM` walks. A walk has one search for each name, and
//! one for each item of the lists that are asked about. This holds for any texts in any order.
//!
//! A long name is read seldom, although it may list many. Questions on one name have the number of
//! one node.
//!
//! A flag is set only if a city object lists what a question asks. No flag is missing for a name
//! that is asked about. `runs` and `wanted` only save time, and no answer depends on them.
//!
//! `Questions` allocates no memory. It uses 18 bytes of the stack for each question, and 28 for
//! each kept text.
ghost use Rattle.std.specs.Prelude.{◌≡◌, ◌<◌, ℕ, length, true, false, slice_index_or, slice_set};

mod gathering;
mod order;
mod runs;
mod wanted;

use crate::feature::search::hashed::Text;
use crate::feature::search::noted::{NOTHING, Noted};
use cj_spans::{Kind, Members, Node};
pub use gathering::Ahead;
use gathering::{gather, hand_of, note_ahead};
use order::{Pair, Question, first_on};
use runs::{NO_RUN, Run, count_unlisted, find_noted, find_unlisted, run_on};
use wanted::{is_wanted, note_wanted};

/// What was found for a question.
#[derive(Clone, Copy)]
pub enum LinkAnswer {
    /// A city object of the one name lists the other.
    Listed,
    /// No city object has the one name.
    Absent,
    /// Neither is known.
    Unknown,
}

/// At most `ROOM` questions in order, and what was found for them. For the first question on each
/// first text, `known` says that the text is a name. For each question, `listed` says that a city
/// object of that name lists the second text.
///
/// There are `KEPT` first texts that are kept, and as many runs that were found before. In 32 times
/// as many bits, `wanted` shows which second texts may be asked about.
#[derive(Drop)]
pub struct Questions<const ROOM: usize, const KEPT: usize> {
    questions: [Question; ROOM],
    count: usize,
    known: [bool; ROOM],
    listed: [bool; ROOM],
    kept: [Noted; KEPT],
    runs: [Run; KEPT],
    wanted: [u32; KEPT],
    ghost places: { 0 < ROOM × 0 < KEPT },
}

/// Sets a flag.
fn set_flag(flags: &mut [bool], place: usize)
    requires { place < length flags.old }
    ensures { flags.new ≡ slice_set flags.old place true }
{
    flags[place] = true;
}

/// Clears all flags.
fn clear(flags: &mut [bool])
    ensures { (i : ℕ) → slice_index_or flags.new i false ≡ false }
{
    for one in flags.iter_mut() {
        *one = false;
    }
}

impl<const ROOM: usize, const KEPT: usize> Questions<ROOM, KEPT> {
    ghost use Rattle.std.specs.Prelude.{List, [], ◌∷◌, Some, IfSome};
    ghost use Rattle.std.specs.Str.{chars};
    ghost use Rattle.cj_spans.specs.Meaning.Tree.{Tree};
    ghost use Rattle.cj_spans.specs.Meaning.Parts.{members_of};
    ghost use Rattle.cj_spans.specs.View.{tree, trees, members_left};
    ghost use Rattle.cj_feature.specs.Meaning.Links.{same_text, listed_in, has_item as has_item_of, lists as lists_of};
    ghost use Rattle.cj_feature.specs.inner.Kin.{back_of};
    ghost use Rattle.cj_feature.specs.inner.Questions.{noted_in, AreAnswered, IsAnswer};

    /// Returns an empty set of questions.
    pub fn new() -> Self
        requires { 0 < ROOM × 0 < KEPT }
        ensures { (list : List ℕ) (objects : Node) → AreAnswered list objects [] result }
    {
        Questions {
            questions: [Question {
                from: NOTHING,
                to: NOTHING,
            }; ROOM],
            count: 0,
            known: [false; ROOM],
            listed: [false; ROOM],
            kept: [NOTHING; KEPT],
            runs: [NO_RUN; KEPT],
            wanted: [0; KEPT],
        }
    }

    /// Removes all questions.
    pub fn clear(&mut self)
        ensures { (list : List ℕ) (objects : Node) → AreAnswered list objects [] self.new }
    {
        self.count = 0;
    }

    /// Sets the flag of the question in a run on these texts. A city object of the first text
    /// lists the second. Returns whether there was one without a flag.
    ///
    /// It takes the texts and the run one by one, since only the questions change.
    #[tactic(auto, using(crate::proofs::Questions::listed_on))]
    fn answer_item(
        &mut self,
        list: &str,
        objects: Node,
        pair: Pair,
        run: Run,
        later: Members,
    ) -> bool
        requires answered { AreAnswered (chars list.now) objects (members_left later) self.old }
        requires listed { (from to : Tree) → same_text (tree pair.from.node) from ≡ true
            → same_text (tree pair.to.node) to ≡ true
            → lists_of (chars list.now) (members_of (tree objects)) from to ≡ true }
        ensures { AreAnswered (chars list.now) objects.entry (members_left later.entry) self.new }
    {
        let questions = &self.questions[..self.count];
        match find_unlisted(objects, questions, &self.listed, run, pair) {
            Some(place) => {
                set_flag(&mut self.listed, place);
                true
            }
            None => false,
        }
    }

    /// Sets the flags of the questions in a run on this name that the list of a city object of the
    /// name answers. Once all have flags, the rest of the list is not read.
    ///
    /// It takes the texts and the run one by one, as `answer_item` does.
    fn answer_items(
        &mut self,
        list: &str,
        objects: Node,
        name: Text,
        object: Node,
        run: Run,
        later: Members,
    )
        requires answered { AreAnswered (chars list.now) objects (members_left later) self.old }
        requires listed { (from to : Tree) → same_text (tree name.node) from ≡ true
            → has_item_of (listed_in (chars list.now) (tree object)) to ≡ true
            → lists_of (chars list.now) (members_of (tree objects)) from to ≡ true }
        ensures { AreAnswered (chars list.now) objects.entry (members_left later.entry) self.new }
    {
        let Some(value) = object.get(list) else {
            return;
        };
        let mut unlisted = count_unlisted(&self.listed, run);
        for item in value.items() {
            if unlisted == 0 {
                return;
            }
            let hash = item.text_hash();
            if !is_wanted(&self.wanted, hash) {
                continue;
            }
            let pair = Pair {
                from: name,
                to: Text::hashed(item, hash),
            };
            if self.answer_item(list, objects, pair, run, later) {
                unlisted -= 1;
            }
        }
    }

    /// Sets the flags of the questions that a city object answers, if one asks about its name.
    /// Then only the later city objects still have questions to answer.
    ///
    /// It takes the texts one by one, as `answer_item` does.
    fn answer_object(&mut self, list: &str, objects: Node, name: Node, object: Node, later: Members)
        requires answered { AreAnswered (chars list.now) objects (trees (name, object) ∷ members_left later) self.old }
        requires listed { (from to : Tree) → same_text (tree name) from ≡ true
            → has_item_of (listed_in (chars list.now) (tree object)) to ≡ true
            → lists_of (chars list.now) (members_of (tree objects)) from to ≡ true }
        ensures { AreAnswered (chars list.now) objects.entry (members_left later.entry) self.new }
    {
        let questions = &self.questions[..self.count];
        let from = Text::of(name);
        let Some(place) = first_on(objects, questions, from) else {
            return;
        };
        let run = run_on(objects, questions, from, place);
        set_flag(&mut self.known, place);
        self.answer_items(list, objects, from, object, run, later);
    }

    /// Answers the questions in one walk over the city objects.
    fn answer_all(&mut self, list: &str, objects: Node)
        requires { AreAnswered (chars list.now) objects (members_of (tree objects)) self.old }
        ensures { AreAnswered (chars list.now) objects.entry [] self.new }
    {
        let mut later = objects.members();
        while let Some((name, object)) = later.next() {
            self.answer_object(list, objects, name, object, later);
        }
    }

    /// Notes a question and the next ones, and answers them.
    fn ask(&mut self, list: &str, objects: Node, item: Node, ahead: Ahead)
        ensures { AreAnswered (chars list.now) objects.entry [] self.new }
    {
        let count = note_ahead(objects, &mut self.questions, &mut self.kept, item, ahead);
        self.count = gather(objects, &mut self.questions[..count]);
        clear(&mut self.known);
        clear(&mut self.listed);
        note_wanted(objects, &self.questions[..self.count], &mut self.wanted);
        self.answer_all(list, objects);
    }

    /// Returns whether a city object of the first text lists the second one, if that is asked in a
    /// run.
    ///
    /// It takes the texts and the run one by one, as `answer_item` does.
    fn is_listed(&self, list: &str, objects: Node, run: Run, from: Text, to: Noted) -> Option<bool>
        requires { AreAnswered (chars list.now) objects [] self.now }
        ensures { result ≡ Some true → lists_of (chars list.now) (members_of (tree objects.entry))
            (tree from.entry.node) (noted_in objects.entry to) ≡ true }
    {
        let place = find_noted(objects, &self.questions[..self.count], run, from, to)?;
        Some(self.listed[place])
    }

    /// Returns what was found for a question, or None if it is not noted.
    fn found(&mut self, list: &str, objects: Node, from: Text, to: Noted) -> Option<LinkAnswer>
        requires answered { AreAnswered (chars list.now) objects [] self.old }
        ensures answer { IfSome result
            (IsAnswer (chars list.now) objects.entry (tree from.entry.node) (noted_in objects.entry to)) }
        ensures answered { AreAnswered (chars list.now) objects.entry [] self.new }
    {
        let hand = hand_of::<KEPT>(from.node, from.short_hash);
        let run = self.runs[hand];
        if let Some(true) = self.is_listed(list, objects, run, from, to) {
            return Some(LinkAnswer::Listed);
        }
        let questions = &self.questions[..self.count];
        let first = first_on(objects, questions, from)?;
        if !self.known[first] {
            return Some(LinkAnswer::Absent);
        }
        let run = run_on(objects, questions, from, first);
        self.runs[hand] = run;
        match self.is_listed(list, objects, run, from, to)? {
            true => Some(LinkAnswer::Listed),
            false => Some(LinkAnswer::Unknown),
        }
    }

    /// Returns whether a city object that an item names lists the current one. If the question is
    /// not noted, it is noted with the next ones and answered.
    #[tactic(auto, using(crate::proofs::Questions::unknown))]
    pub fn answer(&mut self, objects: Node, item: Node, ahead: Ahead) -> LinkAnswer
        requires { AreAnswered (back_of ahead.link) objects [] self.old }
        ensures answer { IsAnswer (back_of ahead.entry.link) objects.entry (tree item.entry)
            (noted_in objects.entry ahead.entry.name) result }
        ensures answered { AreAnswered (back_of ahead.entry.link) objects.entry [] self.new }
    {
        let list = ahead.link.back();
        match item.kind() {
            Kind::Text => {
                let from = Text::of(item);
                if let Some(answer) = self.found(list, objects, from, ahead.name) {
                    return answer;
                }
                self.ask(list, objects, item, ahead);
                match self.found(list, objects, from, ahead.name) {
                    Some(answer) => answer,
                    None => LinkAnswer::Unknown,
                }
            }
            _ => LinkAnswer::Absent,
        }
    }
}

//! A guide over many city objects. It marks most of those that are reached, one after another, and
//! each only once.
//!
//! The guide holds many city objects at once, in lists (`near/lists.rt`). A city object that is
//! found is finished, and waits to be marked (`near/pending.rt`). So it is found once, however
//! often it is listed. When it is marked, the guide searches for what it lists.
//!
//! If the guide has capacity for all, and for all that wait, that is the whole search. Otherwise
//! those with children come first, since only they lead to others. Then the guide takes those
//! without children. They lead to nothing, so one pass over them is enough.
//!
//! The result does not depend on whether the guide finds all. It marks a city object only if one
//! that is reached lists it, or if the id names it. The search after it finds the rest.
ghost use Rattle.std.specs.Prelude.{◌<◌};

mod lists;
mod pending;
mod slot;

use cj_budget::Bounded;
use cj_spans::{Doc, Node, Token, set_mark};
use lists::{Lists, Meant};
use pending::Pending;
use slot::Held;

/// The largest number of passes over the city objects, or over the list of one of them.
const ROUNDS: usize = 64;

/// Holds at most `OBJECTS` city objects, and at most `PENDING` that wait to be marked. `changed`
/// says whether one was marked in this pass.
#[derive(Drop)]
pub struct Near<const OBJECTS: usize, const LISTS: usize, const PENDING: usize> {
    lists: Lists<OBJECTS, LISTS>,
    pending: Pending<PENDING>,
    changed: bool,
}

impl<const OBJECTS: usize, const LISTS: usize, const PENDING: usize> Near<OBJECTS, LISTS, PENDING> {
    ghost use Rattle.std.specs.Prelude.{◌≡◌, Some, length, List, ℕ, ◌^◌, codes};
    ghost use Rattle.std.specs.Str.{chars};
    ghost use Rattle.cj_spans.specs.Meaning.Json.{Json};
    ghost use Rattle.cj_spans.specs.Meaning.Parts.{member_of};
    ghost use Rattle.cj_spans.specs.Preorder.{spans_of};
    ghost use Rattle.cj_spans.specs.Sound.{AreOf};
    ghost use Rattle.cj_spans.specs.Meaning.Tree.{Tree};
    ghost use Rattle.cj_spans.specs.View.{tree, line_of, tree_at, document, document_line, document_source, tokens_in};
    ghost use Rattle.cj_feature.specs.inner.Marking.{AllReached, OnlyMarks, ReachesName, Knows, WaitsFor, AddsNone};
    ghost use Rattle.cj_feature.specs.inner.Marking.{IsGuide, spans_by};
    ghost use Rattle.cj_feature.specs.Meaning.Reachable.{IsReachedObject};

    /// Finishes the city object at this place, if it has this name and is not finished. Then it
    /// waits if it has no mark. Returns whether it was finished here.
    fn note_one(&mut self, objects: Node, place: usize, text: Node) -> bool
        requires known { Knows objects self.old.lists }
        requires room { self.old.pending.count < PENDING }
        requires place { place < OBJECTS }
        ensures hand { AddsNone self.old.lists self.new.lists }
        ensures pending { (feature : Tree) → ReachesName feature objects.entry (tree text.entry)
            → WaitsFor feature (line_of objects.entry) (spans_by objects.entry) self.old.pending
            → WaitsFor feature (line_of objects.entry) (spans_by objects.entry) self.new.pending }
    {
        let Held::Ready(number) = self.lists.slot(place).held() else {
            return false;
        };
        if !objects.at(number - 1).same_text(text) {
            return false;
        }
        self.lists.finish(place, number);
        if !objects.at(number).marked() {
            self.pending.add(number);
        }
        true
    }

    /// Finishes the city objects of this name in the guide. Those without a mark wait. If no more
    /// can wait, it ends early, and the rest are not finished.
    fn note(&mut self, objects: Node, text: Node)
        requires { Knows objects self.old.lists }
        ensures hand { AddsNone self.old.lists self.new.lists }
        ensures pending { (feature : Tree) → ReachesName feature objects.entry (tree text.entry)
            → WaitsFor feature (line_of objects.entry) (spans_by objects.entry) self.old.pending
            → WaitsFor feature (line_of objects.entry) (spans_by objects.entry) self.new.pending }
    {
        let (first, end, is_sorted) = self.lists.places(objects, text);
        for place in first..end {
            if self.pending.is_full() {
                return;
            }
            if !self.note_one(objects, place, text) && is_sorted {
                return;
            }
        }
    }

    /// Makes the city objects in the guide wait that this one lists as children. It skips the first
    /// `skip` items, and ends early if no more can wait. Returns how many items are done, with the
    /// skipped ones.
    fn note_children(&mut self, objects: Node, object: Node, skip: usize) -> usize
        requires { Knows objects self.old.lists }
        ensures hand { AddsNone self.old.lists self.new.lists }
        ensures pending { (feature : Tree)
            → member_of (chars (codes "CityObjects")) feature ≡ Some (tree objects.entry)
            → IsReachedObject feature (tree object.entry)
            → WaitsFor feature (line_of objects.entry) (spans_by objects.entry) self.old.pending
            → WaitsFor feature (line_of objects.entry) (spans_by objects.entry) self.new.pending }
    {
        let Some(value) = object.get("children") else {
            return 0;
        };
        let mut gone: usize = 0;
        for item in value.items() {
            if gone < skip {
                gone += 1;
                continue;
            }
            self.note(objects, item);
            if self.pending.is_full() {
                return gone;
            }
            gone = gone.saturating_add(1);
        }
        gone
    }

    /// Takes the city objects after the first `skip`. Makes those wait that the feature's id names.
    fn begin(&mut self, doc: Doc, skip: usize)
        requires { IsGuide (document_line doc) (tokens_in (document_source doc)) self.old }
        ensures { IsGuide (document_line doc.entry) (tokens_in (document_source doc.entry)) self.new }
    {
        let root = doc.root();
        let (Some(id), Some(objects)) = (root.get("id"), root.get("CityObjects")) else {
            return;
        };
        self.lists.gather(objects, skip);
        self.note(objects, id);
    }

    /// Makes those in the guide wait that the node of this number lists, if it has a mark. It skips
    /// the first `skip` items. Returns how many items are done.
    fn look_behind(&mut self, doc: Doc, number: u32, skip: usize) -> usize
        requires { IsGuide (document_line doc) (tokens_in (document_source doc)) self.old }
        ensures { IsGuide (document_line doc.entry) (tokens_in (document_source doc.entry)) self.new }
    {
        let root = doc.root();
        let object = root.at(number);
        if object.marked() {
            if let Some(objects) = root.get("CityObjects") {
                return self.note_children(objects, object, skip);
            }
        }
        skip
    }

    /// Marks one that is reached, and makes those in the guide wait that it lists.
    fn mark(&mut self, line: &[u8], tokens: &mut Bounded<Token>, number: u32)
        requires guide { IsGuide line.now tokens.old.elements self.old }
        requires within { number < length tokens.old.elements }
        requires reached { (feature : Tree) → Json line.now feature
            → IsReachedObject feature (tree_at line.now (spans_of tokens.old.elements) number) }
        ensures guide { IsGuide line.now tokens.new.elements self.new }
        ensures marks { OnlyMarks tokens.old tokens.new }
    {
        if Doc::of(line, tokens.as_slice()).root().at(number).marked() {
            return;
        }
        self.changed = true;
        set_mark(tokens, number);
        let _ = self.look_behind(Doc::of(line, tokens.as_slice()), number, 0);
    }

    /// Marks all that wait, and all in the guide that these lead to.
    fn follow(&mut self, line: &[u8], tokens: &mut Bounded<Token>)
        requires { IsGuide line.now tokens.old.elements self.old }
        ensures guide { IsGuide line.now tokens.new.elements self.new }
        ensures marks { OnlyMarks tokens.old tokens.new }
    {
        for _ in 0..u64::MAX {
            let Some(number) = self.pending.pop() else {
                return;
            };
            self.mark(line, tokens, number);
        }
    }

    /// Takes the city objects after the first `skip`. Marks those of them that are reached from the
    /// feature's id through others of them.
    fn mark_from_id(&mut self, line: &[u8], tokens: &mut Bounded<Token>, skip: usize)
        requires { IsGuide line.now tokens.old.elements self.old }
        ensures guide { IsGuide line.now tokens.new.elements self.new }
        ensures marks { OnlyMarks tokens.old tokens.new }
    {
        self.begin(Doc::of(line, tokens.as_slice()), skip);
        self.follow(line, tokens);
    }

    /// If the node of this number has a mark, marks those in the guide that it lists. It also marks
    /// all in the guide that these lead to.
    fn mark_behind(&mut self, line: &[u8], tokens: &mut Bounded<Token>, number: u32)
        requires { IsGuide line.now tokens.old.elements self.old }
        ensures guide { IsGuide line.now tokens.new.elements self.new }
        ensures marks { OnlyMarks tokens.old tokens.new }
    {
        let mut gone = 0;
        for _ in 0..ROUNDS {
            self.pending.full = false;
            gone = self.look_behind(Doc::of(line, tokens.as_slice()), number, gone);
            self.follow(line, tokens);
            if !self.pending.full {
                return;
            }
        }
    }

    /// Takes the city objects after the first `skip`. Marks those of them that are reached from the
    /// feature's id and from all that have marks.
    fn mark_block(&mut self, line: &[u8], tokens: &mut Bounded<Token>, skip: usize)
        requires { IsGuide line.now tokens.old.elements self.old }
        ensures guide { IsGuide line.now tokens.new.elements self.new }
        ensures marks { OnlyMarks tokens.old tokens.new }
    {
        self.mark_from_id(line, tokens, skip);
        let count = Doc::of(line, tokens.as_slice()).root().size();
        for number in 0..count {
            self.mark_behind(line, tokens, number);
        }
    }

    /// Goes over all city objects, at most `OBJECTS` at once.
    fn mark_round(&mut self, line: &[u8], tokens: &mut Bounded<Token>)
        requires { IsGuide line.now tokens.old.elements self.old }
        ensures guide { IsGuide line.now tokens.new.elements self.new }
        ensures marks { OnlyMarks tokens.old tokens.new }
    {
        let count = Doc::of(line, tokens.as_slice()).root().size();
        for block in 0..count {
            self.mark_block(line, tokens, (block as usize).saturating_mul(OBJECTS));
            if self.lists.count < OBJECTS {
                return;
            }
        }
    }

    /// Repeats `mark_round` until it marks none, at most `ROUNDS` times.
    fn mark_rounds(&mut self, line: &[u8], tokens: &mut Bounded<Token>)
        requires { IsGuide line.now tokens.old.elements self.old }
        ensures guide { IsGuide line.now tokens.new.elements self.new }
        ensures marks { OnlyMarks tokens.old tokens.new }
    {
        for _ in 0..ROUNDS {
            self.changed = false;
            self.mark_round(line, tokens);
            if !self.changed {
                return;
            }
        }
    }

    /// Marks city objects that are reached, if the guide cannot hold all at once. It takes those
    /// with children first, and then those without.
    fn mark_apart(&mut self, line: &[u8], tokens: &mut Bounded<Token>)
        requires { IsGuide line.now tokens.old.elements self.old }
        ensures guide { IsGuide line.now tokens.new.elements self.new }
        ensures marks { OnlyMarks tokens.old tokens.new }
    {
        self.lists.meant = Meant::Parents;
        self.mark_rounds(line, tokens);
        self.lists.meant = Meant::Others;
        self.mark_round(line, tokens);
    }

    /// Marks city objects that are reached from the feature's id. It marks all, as far as the
    /// capacity for what leads to them is enough.
    ///
    /// It is never inlined, so that a feature of fewer city objects uses none of its stack.
    #[inline(never)]
    pub fn mark_all(line: &[u8], tokens: &mut Bounded<Token>)
        requires lists { 0 < LISTS × LISTS < 2 ^ 32 }
        requires objects { OBJECTS < 2 ^ 32 }
        requires pending { PENDING < 2 ^ 32 }
        requires scanned { AreOf line.now tokens.old.elements }
        requires sound { (feature : Tree) → Json line.now feature → AllReached feature line.now tokens.old.elements }
        ensures sound { (feature : Tree) → Json line.now feature → AllReached feature line.now tokens.new.elements }
        ensures marks { OnlyMarks tokens.old tokens.new }
    {
        let mut near: Self = Near {
            lists: Lists::new(),
            pending: Pending::new(),
            changed: false,
        };
        near.mark_from_id(line, tokens, 0);
        if near.pending.full || near.lists.count == OBJECTS {
            near.mark_apart(line, tokens);
        }
    }
}

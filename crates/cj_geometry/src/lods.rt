//! Levels of detail of many geometries, one after another (CityJSON 2.0, section 3.1).
//!
//! An instance names its template by a number. The steps of the list find it ([`Steps`]), or finer
//! steps after many searches. A template may have many members before its level of detail, so the
//! last results are kept.
ghost use Rattle.std.specs.Prelude.{◌≡◌, ◌<◌, ℕ, Some, IfSome, codes, if◌then◌else◌, option_and_then, option_map};
ghost use Rattle.std.specs.Prelude.{slice_get, slice_set};
ghost use Rattle.std.specs.Option.{ForSome};
ghost use Rattle.std.specs.Str.{chars};
ghost use Rattle.cj_spans.specs.Meaning.Parts.{items_of, member_of, items_if};
ghost use Rattle.cj_spans.specs.View.{tree, line_of, source_of};
ghost use Rattle.cj_geometry.specs.Given.{list_of, given, given_source};
ghost use Rattle.cj_geometry.specs.inner.TemplateLods.{AreAnswersIn, kept_at};
ghost use Rattle.cj_geometry.specs.ListSteps.{AreStepsOf, AreFinerStepsOf};
ghost use Rattle.cj_geometry.specs.inner.TreeSet.{options-set};

use crate::lod::is_an_instance;
use crate::rule::read_whole;
use crate::steps::{FinerSteps, Steps};
use crate::templates::Templates;
use cj_spans::Node;

/// How many results are kept.
const ANSWERS: usize = 64;

/// The number of searches after which finer steps are worth their cost.
const MANY: usize = 64;

/// A result: the level of detail of the template with this number.
#[derive(Clone, Copy)]
struct TemplateLod<'a> {
    number: u64,
    lod: Option<Node<'a>>,
}

/// Returns the result for the template with this number, if one is kept.
fn answer_for<'a>(answers: &[Option<TemplateLod<'a>>], number: u64) -> Option<TemplateLod<'a>>
    ensures kept { IfSome result (λ a. (slot : ℕ) × (slice_get answers.now slot ≡ Some (Some a))) }
    ensures number { IfSome result (λ a. a.number ≡ number) }
{
    for slot in 0..answers.len() {
        if let Some(answer) = answers[slot] {
            if answer.number == number {
                return Some(answer);
            }
        }
    }
    None
}

/// Returns these results, with another one in a slot.
#[inline(never)]
fn with_answer<'a>(
    answers: [Option<TemplateLod<'a>>; ANSWERS],
    slot: usize,
    answer: TemplateLod<'a>,
) -> [Option<TemplateLod<'a>>; ANSWERS]
    requires { slot < ANSWERS }
    ensures { result ≡ slice_set answers.entry slot (Some answer.entry) }
{
    let mut all = answers;
    let slots = &mut all[..];
    slots[slot] = Some(answer);
    all
}

/// The levels of detail of geometries that may name these templates.
#[derive(Clone, Copy)]
pub struct Lods<'a> {
    templates: Templates<'a>,
    steps: Steps,
    searches: usize,
    finer: Option<FinerSteps>,
    answers: [Option<TemplateLod<'a>>; ANSWERS],
    oldest: usize,
    ghost stepped: { AreStepsOf (items_if (list_of (given templates))) steps },
    ghost stepped_finer: { ForSome finer (AreFinerStepsOf (items_if (list_of (given templates)))) },
    ghost answered: { AreAnswersIn (items_if (list_of (given templates))) answers } by { options-set _ _ },
    ghost placed: { (slot : ℕ) → ForSome (kept_at answers slot) (λ n. given_source templates ≡ Some (source_of n)) },
}

impl<'a> Lods<'a> {
    ghost use Rattle.cj_geometry.specs.Meaning.Lod.{chosen, is_instance, template_lod, lod};
    ghost use Rattle.cj_geometry.specs.Lods.{given_to, line_given_to, source_given_to};
    ghost use Rattle.cj_geometry.specs.Given.{given_line};

    /// Returns a new one for geometries that may name these templates.
    pub fn beside(templates: Templates<'a>) -> Lods<'a>
        ensures given { given_to result ≡ given templates.entry }
        ensures line { line_given_to result ≡ given_line templates.entry }
        ensures source { source_given_to result ≡ given_source templates.entry }
    {
        Lods {
            templates,
            steps: templates.steps(),
            searches: 0,
            finer: None,
            answers: [None; ANSWERS],
            oldest: 0,
        }
    }

    /// Returns the level of detail of a geometry, as [`crate::lod_of`] does. It finds those of many
    /// instances fast, for any length of the list of templates.
    pub fn lod_of(&mut self, node: Node<'a>) -> Option<Node<'a>>
        ensures lod { option_map tree result ≡ lod (given_to self.old) (tree node.entry) }
        ensures line { IfSome result (λ n. Some (line_of n)
            ≡ (if is_instance (tree node.entry) then line_given_to self.old else Some (line_of node.entry))) }
        ensures source { IfSome result (λ n. Some (source_of n)
            ≡ (if is_instance (tree node.entry) then source_given_to self.old else Some (source_of node.entry))) }
        ensures same { given_to self.new ≡ given_to self.old }
        ensures same_line { line_given_to self.new ≡ line_given_to self.old }
        ensures same_source { source_given_to self.new ≡ source_given_to self.old }
    {
        if is_an_instance(node) {
            self.lod_of_template(node)
        } else {
            node.get("lod")
        }
    }

    /// Returns the level of detail of an instance's template.
    #[inline(never)]
    fn lod_of_template(&mut self, node: Node<'a>) -> Option<Node<'a>>
        ensures lod { option_map tree result ≡ template_lod (given_to self.old) (tree node.entry) }
        ensures source { IfSome result (λ n. source_given_to self.old ≡ Some (source_of n)) }
        ensures same { self.new.templates ≡ self.old.templates }
    {
        match node.get("template") {
            Some(index) => self.lod_chosen(index),
            None => None,
        }
    }

    /// Returns the level of detail of the template that this index chooses, if there is one.
    fn lod_chosen(&mut self, index: Node) -> Option<Node<'a>>
        ensures lod { option_map tree result
            ≡ option_and_then (member_of (chars (codes "lod"))) (chosen (given_to self.old) (tree index.entry)) }
        ensures source { IfSome result (λ n. source_given_to self.old ≡ Some (source_of n)) }
        ensures same { self.new.templates ≡ self.old.templates }
    {
        match self.templates.nodes() {
            Some(list) => match read_whole(index) {
                Some(whole) if whole >= 0 => self.lod_at(list, whole as u64),
                _ => None,
            },
            None => None,
        }
    }

    /// Returns the level of detail of the template with this number in the list, from 0.
    fn lod_at(&mut self, list: Node<'a>, number: u64) -> Option<Node<'a>>
        requires list { Some (tree list) ≡ list_of (given_to self.old) }
        requires source { source_given_to self.old ≡ Some (source_of list) }
        ensures lod { option_map tree result
            ≡ option_and_then (member_of (chars (codes "lod"))) (slice_get (items_of (tree list.entry)) number) }
        ensures source { IfSome result (λ n. source_given_to self.old ≡ Some (source_of n)) }
        ensures same { self.new.templates ≡ self.old.templates }
    {
        if let Some(answer) = answer_for(&self.answers, number) {
            return answer.lod;
        }
        let lod = self.lod_found(list, number);
        self.note(list, TemplateLod { number, lod });
        lod
    }

    /// Does the same, by a search of the list.
    #[inline(never)]
    fn lod_found(&mut self, list: Node<'a>, number: u64) -> Option<Node<'a>>
        requires list { Some (tree list) ≡ list_of (given_to self.old) }
        requires source { source_given_to self.old ≡ Some (source_of list) }
        ensures lod { option_map tree result
            ≡ option_and_then (member_of (chars (codes "lod"))) (slice_get (items_of (tree list.entry)) number) }
        ensures source { IfSome result (λ n. source_given_to self.old ≡ Some (source_of n)) }
        ensures same { self.new.templates ≡ self.old.templates }
    {
        self.count_search(list);
        match self.template(list, number) {
            Some(template) => template.get("lod"),
            None => None,
        }
    }

    /// Counts a search. After many searches it makes finer steps for those that follow.
    fn count_search(&mut self, list: Node)
        requires { Some (tree list) ≡ list_of (given_to self.old) }
        ensures { self.new.templates ≡ self.old.templates }
    {
        if self.searches < MANY {
            self.searches += 1;
            if self.searches == MANY {
                self.finer = Some(self.steps.finer(list));
            }
        }
    }

    /// Returns the template with this number.
    fn template(&self, list: Node<'a>, number: u64) -> Option<Node<'a>>
        requires { Some (tree list) ≡ list_of (given_to self.now) }
        ensures item { option_map tree result ≡ slice_get (items_of (tree list.entry)) number }
        ensures source { IfSome result (λ n. source_of n ≡ source_of list.entry) }
    {
        match &self.finer {
            Some(finer) => finer.item(list, number),
            None => self.steps.item(list, number),
        }
    }

    /// Keeps a result, in place of the oldest.
    #[inline(never)]
    fn note(&mut self, list: Node<'a>, answer: TemplateLod<'a>)
        requires list { Some (tree list) ≡ list_of (given_to self.old) }
        requires right { option_map tree answer.lod
            ≡ option_and_then (member_of (chars (codes "lod"))) (slice_get (items_of (tree list)) answer.number) }
        requires source { IfSome answer.lod (λ n. source_given_to self.old ≡ Some (source_of n)) }
        ensures same { self.new.templates ≡ self.old.templates }
    {
        let slot = self.oldest % ANSWERS;
        self.answers = with_answer(self.answers, slot, answer);
        self.oldest = slot + 1;
    }
}

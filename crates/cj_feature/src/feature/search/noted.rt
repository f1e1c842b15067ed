//! Texts that are noted by the numbers of nodes. They are ordered by their short hashes, and texts
//! of one short hash by code points. So most comparisons compare two numbers.
ghost use Rattle.std.specs.Prelude.{◌≡◌, true, false};
ghost use Rattle.cj_spans.specs.Order.{compare_texts};
ghost use Rattle.cj_spans.specs.Meaning.Parts.{text_of};
ghost use Rattle.cj_spans.specs.View.{tree, source_of, tree_in};
ghost use Rattle.cj_feature.specs.Meaning.Links.{same_text};
ghost use Rattle.cj_feature.specs.inner.ShortHash.{short_hash_of as short_hash_of_text};
ghost use Rattle.cj_feature.specs.inner.Questions.{compare_sides, text_side, noted_in, side_in};

use crate::feature::search::hashed::{Text, short_hash_of};
use cj_spans::{Kind, Node};
use std::cmp::Ordering;

/// A text that is noted: its short hash, and the number of its node in the line of the city
/// objects.
#[derive(Clone, Copy)]
pub struct Noted {
    pub short_hash: u32,
    pub number: u32,
}

/// What an array holds before a question is noted.
pub const NOTHING: Noted = Noted {
    short_hash: 0,
    number: 0,
};

impl Noted {
    /// Returns the text of a node.
    pub fn of(node: Node) -> Noted
        ensures short_hash { result.short_hash ≡ short_hash_of_text (text_of (tree node.entry)) }
        ensures node { tree_in (source_of node.entry) result.number ≡ tree node.entry }
    {
        Noted {
            short_hash: short_hash_of(node),
            number: node.number(),
        }
    }

    /// Returns the node that has the text.
    pub fn node(self, objects: Node) -> Node
        ensures { tree result ≡ noted_in objects.entry self }
    {
        objects.at(self.number)
    }

    /// Compares two texts: by their short hashes, and if these are the same, by code points.
    pub fn compare(self, other: Noted, objects: Node) -> Ordering
        ensures { result ≡ compare_sides (side_in objects.entry self) (side_in objects.entry other) }
    {
        match self.short_hash.cmp(&other.short_hash) {
            Ordering::Equal => compare_numbered(objects, self.number, other.number),
            order => order,
        }
    }

    /// Compares the text with one that is looked up.
    pub fn compare_with(self, text: Text, objects: Node) -> Ordering
        ensures { result ≡ compare_sides (side_in objects.entry self) (text_side text.entry) }
    {
        match self.short_hash.cmp(&text.short_hash) {
            Ordering::Equal => self.node(objects).compare_text(text.node),
            order => order,
        }
    }

    /// Returns whether it is the text that is looked up, and has the same short hash.
    pub fn is(self, text: Text, objects: Node) -> bool
        ensures short_hash { result ≡ true → self.short_hash ≡ text.entry.short_hash }
        ensures text { result ≡ true → same_text (noted_in objects.entry self) (tree text.entry.node) ≡ true }
        ensures other { result ≡ false → self.short_hash ≡ text.entry.short_hash
            → same_text (noted_in objects.entry self) (tree text.entry.node) ≡ false }
    {
        self.short_hash == text.short_hash && self.node(objects).same_text(text.node)
    }

    /// Returns whether both have the same text. If they are one node, it does not read the text,
    /// which may be long.
    pub fn is_same(self, other: Noted, objects: Node) -> bool
        ensures { result ≡ true → same_text (noted_in objects.entry self) (noted_in objects.entry other) ≡ true }
    {
        let node = self.node(objects);
        match node.kind() {
            Kind::Text if self.number == other.number => true,
            _ => self.short_hash == other.short_hash && node.same_text(other.node(objects)),
        }
    }
}

/// Compares the texts of two nodes by code points. One node has one text.
#[tactic(auto, using(crate::proofs::Questions::one_text))]
fn compare_numbered(objects: Node, first: u32, second: u32) -> Ordering
    ensures { result ≡ compare_texts (text_of (tree_in (source_of objects.entry) first))
        (text_of (tree_in (source_of objects.entry) second)) }
{
    if first == second {
        return Ordering::Equal;
    }
    objects.at(first).compare_text(objects.at(second))
}

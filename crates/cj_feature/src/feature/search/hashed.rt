//! Texts with short hashes. They are ordered by short hash first.
ghost use Rattle.std.specs.Prelude.{◌≡◌, ◌%◌};
ghost use Rattle.cj_spans.specs.Hash.{hash_of};
ghost use Rattle.cj_spans.specs.Meaning.Parts.{text_of};
ghost use Rattle.cj_spans.specs.View.{tree};
ghost use Rattle.cj_feature.specs.inner.ShortHash.{short_hash_of as short_hash_of_text};

use cj_spans::Node;

/// A prime. A short hash is a remainder of the division by it.
const SHORT_HASHES: u64 = 4_294_967_291;

/// A text that is looked up: its short hash, and its node, which may be one of another line.
#[derive(Clone, Copy)]
pub struct Text<'a> {
    pub short_hash: u32,
    pub node: Node<'a>,
    ghost hashed: { short_hash ≡ short_hash_of_text (text_of (tree node)) },
}

/// Returns the short hash of a text, from its hash. So the short hash depends on all
/// code points, and distinguishes most texts.
fn short_hash(hash: u64) -> u32
    ensures { result ≡ hash % 4294967291 }
{
    (hash % SHORT_HASHES) as u32
}

/// Returns the short hash of a text, or 0 for a value that is no text.
pub fn short_hash_of(node: Node) -> u32
    ensures { result ≡ short_hash_of_text (text_of (tree node.entry)) }
{
    short_hash(node.text_hash())
}

impl<'a> Text<'a> {
    /// Returns the text of a node. `hash` is that of the text.
    pub fn hashed(node: Node<'a>, hash: u64) -> Text<'a>
        requires { hash ≡ hash_of (text_of (tree node)) }
        ensures { tree result.node ≡ tree node.entry }
    {
        Text {
            short_hash: short_hash(hash),
            node,
        }
    }

    /// Returns the text of a node.
    pub fn of(node: Node<'a>) -> Text<'a>
        ensures { tree result.node ≡ tree node.entry }
    {
        Text::hashed(node, node.text_hash())
    }
}

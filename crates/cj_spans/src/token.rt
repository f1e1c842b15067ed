//! Tokens: where each value and each member name of a line is.
//!
//! Tokens are one flat list in the order of their starts. So nothing is built, and a copy is a copy
//! of numbers. A token has no kind: the byte at its start shows the kind of a value.
//!
//! A *link* is the index of the first token after a token and its parts. It is set when a container
//! closes. While the container is open, stop is 0 and link shows the scanner its kind (`open_link`,
//! `open_kind`).
//!
//! The top bit of a link is free for a *mark* (`mark.rt`), as no line has 2^31 tokens. Only
//! `link_of` of the definitions and `Source::after` read links, and they leave this bit out.
//! Anything else that is put into a token must not change starts and stops, since these determine
//! the tree.
ghost use Rattle.std.specs.Prelude.{◌≡◌, ◌+◌, ◌^◌, ◌<◌, ◌++◌, ◌∷◌, [], length, IsTrue};
ghost use Rattle.cj_budget.specs.Bounded.{Becomes};
ghost use Rattle.cj_spans.specs.Preorder.{token_at};

use cj_budget::Bounded;

/// The kinds of JSON values.
#[derive(Clone, Copy, Debug, PartialEq, Eq)]
pub enum Kind {
    /// `null`.
    Null,
    /// `true` or `false`.
    Truth,
    /// A number.
    Number,
    /// A string.
    Text,
    /// An array.
    Array,
    /// An object.
    Object,
}

/// One value or member name of a line: the bytes where it starts and stops, and its link.
#[derive(Clone, Copy, Debug, PartialEq, Eq)]
pub struct Token {
    pub(crate) start: u32,
    pub(crate) stop: u32,
    pub(crate) link: u32,
}

const _: () = prove!(size_of::<Token>() == 12);

/// Keeps the token of a scalar or a name. It has no parts, so it links to the next token.
#[inline(always)]
pub(crate) fn keep_atom(place: usize, stop: usize, tokens: &mut Bounded<Token>)
    requires short { (place < 2 ^ 31) × (stop < 2 ^ 31) }
    requires small { length tokens.old.elements < 2 ^ 31 }
    requires room { length tokens.old.elements < tokens.old.limit }
    requires reserved { IsTrue tokens.old.reserved }
    ensures { Becomes tokens.old
        (tokens.old.elements ++ token_at place stop (length tokens.old.elements + 1) ∷ []) tokens.new }
{
    let token = Token {
        start: place as u32,
        stop: stop as u32,
        link: tokens.len() as u32 + 1,
    };
    tokens.push_reserved(token);
}

//! Marks on tokens.
//!
//! A mark is the top bit of a token's link. No link is large enough to use this bit. So a mark
//! takes no memory, and a token shows the same as before: where it starts and stops, and what it
//! links to.
ghost use Rattle.std.specs.Prelude.{◌≡◌, ◌≢◌, ◌<◌, ◌+◌, ◌%◌, ◌^◌, ℕ, length, true};
ghost use Rattle.cj_spans.specs.Marks.{has_mark as has_mark_of, is_marked_at, KeepsTokens};
ghost use Rattle.cj_spans.specs.Preorder.{token_at as token_at_of};
ghost use Rattle.cj_spans.specs.Sound.{link_of};

use crate::node::token_at;
use crate::token::Token;
use cj_budget::Bounded;

/// Links are below this. The top bit may be a mark.
pub(crate) const LINKS: u32 = 1 << 31;

/// Returns whether a token has a mark.
pub(crate) fn has_mark(token: Token) -> bool
    ensures { result ≡ has_mark_of token }
{
    token.link >= LINKS
}

/// Returns the token with a mark.
fn with_mark(token: Token) -> Token
    ensures { result ≡ token_at_of token.start token.stop (link_of token + 2 ^ 31) }
{
    Token {
        link: token.link % LINKS + LINKS,
        ..token
    }
}

/// Marks the token with this number, if it has no mark. The marks of other tokens stay.
///
/// The tokens show the same as before, so make views of them again with [`crate::Doc::of`]. It
/// allocates nothing.
#[tactic(auto, using(crate::proofs::Noted::marked_here, crate::proofs::Noted::marked_elsewhere, crate::proofs::Noted::keeps))]
pub fn set_mark(tokens: &mut Bounded<Token>, number: u32)
    requires { number < length tokens.old.elements }
    ensures marked { is_marked_at tokens.new.elements number ≡ true }
    ensures others { (k : ℕ) → k ≢ number
        → is_marked_at tokens.new.elements k ≡ is_marked_at tokens.old.elements k }
    ensures kept { KeepsTokens tokens.old tokens.new }
{
    let token = token_at(tokens.as_slice(), number as usize);
    tokens.set(number as usize, with_mark(token));
}

//! Where the tokens of a value end, found by their places alone.
ghost use Rattle.std.specs.Prelude.{◌≡◌, ◌<◌, ◌≤◌, ◌+◌, length, drop};
ghost use Rattle.cj_spans.specs.Preorder.{spans_of};
ghost use Rattle.cj_spans.specs.Sound.{AreOf, before};
ghost use Rattle.cj_spans.specs.Meaning.Tree.{size};
ghost use Rattle.cj_spans.specs.View.{tree_at};

use crate::node::token_at;
use crate::token::Token;

/// Returns the first token, from this index on, that does not start before the place, or the number
/// of tokens.
#[tactic(auto, using(crate::proofs::Sizes::before_stopped, crate::proofs::Sizes::before_end))]
fn first_from(tokens: &[Token], from: usize, stop: u32) -> usize
    requires { from ≤ length tokens.now }
    ensures first { result ≡ from + before stop (drop from tokens.now) }
    ensures within { result ≤ length tokens.now }
{
    let mut next = from;
    while next < tokens.len() {
        if token_at(tokens, next).start >= stop {
            return next;
        }
        next += 1;
    }
    next
}

/// Returns the first token after the value of the token `index` and all its parts, or the number of
/// tokens. For the token of a name it is the next one.
///
/// It uses places and no links: it passes over each token that starts before the value ends. A walk
/// by links needs no such search. This one is for tokens whose links cannot be relied on, and takes
/// a step for each part of the value.
#[tactic(auto, using(crate::proofs::Sizes::past_tree))]
pub fn slow_next(line: &[u8], tokens: &[Token], index: u32) -> u32
    requires scanned { AreOf line.now tokens.now }
    requires short { length line.now ≤ 1073741824 }
    requires token { index < length tokens.now }
    ensures { result ≡ index + size (tree_at line.now (spans_of tokens.now) index) }
{
    let token = token_at(tokens, index as usize);
    first_from(tokens, index as usize + 1, token.stop) as u32
}

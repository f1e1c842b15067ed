//! Views of a scanned line: its tree, shown by the line and its tokens.
//!
//! A [`Doc`] shows the tree of a line that a scan accepted. A [`Node`] shows one value or name of
//! it. They allocate nothing, and no call can fail. Each call looks up its result in the line.
//!
//! ```text
//! let root = Doc::of(line, tokens.as_slice()).root();
//! for (name, value) in root.members() {} // in order, also repeated names
//! match root.get("type") {               // the first member with this name, in any spelling
//!     Some(value) => value.text_is("CityJSON"),
//!     None => false,
//! }
//! ```
ghost use Rattle.std.specs.Prelude.{◌≡◌, ◌<◌, ◌≤◌, ◌+◌, ◌^◌, ◌∷◌, ℕ, length, slice_get, Some, List, take, drop};
ghost use Rattle.std.specs.Prelude.{slice_range};
ghost use Rattle.std.specs.Prelude.{IsTrue};
ghost use Rattle.cj_spans.specs.Sound.{AreOf, AreFull, AreWithin, AreRising, AreNested, AreNamed, AreSpelled};
ghost use Rattle.cj_spans.specs.Sound.{AreLinked, AreLone};
ghost use Rattle.cj_spans.specs.Sound.{AreWhole, ShowMembers, before};
ghost use Rattle.cj_spans.specs.Sound.{items_end as items_end_of, members_end as members_end_of};
ghost use Rattle.cj_spans.specs.Meaning.Tree.{Tree};
ghost use Rattle.cj_spans.specs.declared.token.Token.{Token as TokenOf};
ghost use Rattle.cj_spans.specs.Meaning.Json.{Json, byte};
ghost use Rattle.cj_spans.specs.Forest.{kind_by};

use crate::lanes::are_whole_signs;
use crate::mark::{LINKS, has_mark};
use crate::text::{
    CodePoints, compare_spelling_with, compare_spellings, hash, is_spelled_so, spell_one_text,
    spells, tail, word,
};
use crate::token::{Kind, Token};
use std::cmp::Ordering;

/// A line with the tokens that show its tree.
#[derive(Clone, Copy)]
struct Source<'a> {
    line: &'a [u8],
    tokens: &'a [Token],
    ghost within: { AreWithin line.now tokens.now },
    ghost rising: { AreRising tokens.now },
    ghost nested: { AreNested tokens.now },
    ghost named: { AreNamed line.now tokens.now },
    ghost spelled: { AreSpelled line.now tokens.now },
    ghost linked: { AreLinked tokens.now },
    ghost lone: { AreLone line.now tokens.now },
    ghost full: { AreFull line.now tokens.now },
}

/// The tree of a line.
#[derive(Clone, Copy)]
pub struct Doc<'a> {
    source: Source<'a>,
    ghost known: { 0 < length source.tokens.now },
}

/// A value or a member name of a line.
#[derive(Clone, Copy)]
pub struct Node<'a> {
    source: Source<'a>,
    index: usize,
    ghost known: { index < length source.tokens.now },
}

/// The remaining items of an array, in order.
#[derive(Clone, Copy)]
pub struct Items<'a> {
    source: Source<'a>,
    next: usize,
    stop: usize,
    ghost whole: { AreWhole source.tokens.now next stop },
}

/// The remaining members of an object, in order.
#[derive(Clone, Copy)]
pub struct Members<'a> {
    source: Source<'a>,
    next: usize,
    stop: usize,
    ghost whole: { AreWhole source.tokens.now next stop },
    ghost named: { ShowMembers source.line.now source.tokens.now next stop },
}

/// Returns the token at an index.
pub(crate) fn token_at(tokens: &[Token], index: usize) -> Token
    requires { index < length tokens.now }
    ensures { slice_get tokens.now index ≡ Some result }
{
    tokens[index]
}

/// Returns the kind of the value or name that starts here (RFC 8259, section 3).
fn kind_at(line: &[u8], start: usize) -> Kind
    requires { start < length line.now }
    ensures { result ≡ kind_by (byte line.now start) }
{
    match line[start] {
        b'[' => Kind::Array,
        b'{' => Kind::Object,
        b'"' => Kind::Text,
        b'n' => Kind::Null,
        b't' => Kind::Truth,
        b'f' => Kind::Truth,
        _ => Kind::Number,
    }
}

/// Returns where a walk over the items of a value of this kind ends. `link` is the link of its
/// token.
fn items_end(kind: Kind, link: usize) -> usize
    ensures { result ≡ items_end_of kind link }
{
    match kind {
        Kind::Array => link,
        _ => 0,
    }
}

/// Returns where a walk over the members of a value of this kind ends. `link` is the link of its
/// token.
fn members_end(kind: Kind, link: usize) -> usize
    ensures { result ≡ members_end_of kind link }
{
    match kind {
        Kind::Object => link,
        _ => 0,
    }
}

impl<'a> Source<'a> {
    /// Returns the first later token that does not start before the end of the token at this index.
    fn after(self, index: usize) -> usize
        requires { index < length self.tokens.now }
        ensures order { (index < result) × (result ≤ length self.entry.tokens.now) }
        ensures link { (t : TokenOf) → slice_get self.entry.tokens.now index ≡ Some t
            → result ≡ index + 1 + before t.stop (drop (index + 1) self.entry.tokens.now) }
    {
        (token_at(self.tokens, index).link % LINKS) as usize
    }

    /// Returns whether the token at this index has at most 18 bytes.
    #[inline(always)]
    fn is_short(self, index: usize) -> bool
        requires { index < length self.tokens.now }
        ensures { IsTrue result → (t : TokenOf) → slice_get self.entry.tokens.now index ≡ Some t
            → t.stop ≤ t.start + 18 }
    {
        let token = token_at(self.tokens, index);
        token.stop - token.start <= 18
    }
}

impl<'a> Doc<'a> {
    ghost use Rattle.cj_spans.specs.View.{document, document_line, document_source, tree, line_of, source_of};
    ghost use Rattle.cj_spans.specs.View.{tokens_in};

    /// Returns a view of a line, given the tokens that a scan of it left with `Ok`. A copy of the
    /// line and the tokens works too, also later.
    pub fn of(line: &'a [u8], tokens: &'a [Token]) -> Doc<'a>
        requires { AreOf line.now tokens.now }
        ensures json { Json line.now (document result) }
        ensures only { (t : Tree) → Json line.now t → document result ≡ t }
        ensures line { document_line result ≡ line.now }
        ensures tokens { tokens_in (document_source result) ≡ tokens.now }
    {
        Doc {
            source: Source { line, tokens },
        }
    }

    /// Returns the value that the line is.
    #[tactic(auto, unfolding(crate::specs::View::tree, crate::specs::View::document, crate::specs::View::line_of, crate::specs::View::document_line, crate::specs::View::source_of, crate::specs::View::document_source))]
    pub fn root(self) -> Node<'a>
        ensures tree { tree result ≡ document self.entry }
        ensures line { line_of result ≡ document_line self.entry }
        ensures source { source_of result ≡ document_source self.entry }
    {
        Node {
            source: self.source,
            index: 0,
        }
    }

    /// Returns the line, borrowed for as long as [`Doc::of`] borrowed it.
    #[tactic(auto, unfolding(crate::specs::View::document_line))]
    pub fn line(self) -> &'a [u8]
        ensures { result.now ≡ document_line self.entry }
    {
        let line = self.source.line;
        line
    }
}

impl<'a> Node<'a> {
    ghost use Rattle.cj_spans.specs.declared.token.Kind.TheVariants.{Number};
    ghost use Rattle.cj_spans.specs.Meaning.Parts.{kind_of, items_of, members_of};
    ghost use Rattle.cj_spans.specs.Places.{spelling_of, AreNamesInOrder, AreValuesInOrder};
    ghost use Rattle.cj_spans.specs.Meaning.Spelling.{IsNumber};
    ghost use Rattle.cj_spans.specs.Meaning.Tree.{start_of, size};
    ghost use Rattle.cj_spans.specs.Forest.{total_size};
    ghost use Rattle.cj_spans.specs.View.{tree, line_of, source_of, items_left, items_line, items_source, members_left};
    ghost use Rattle.cj_spans.specs.View.{members_line, members_source};

    /// Returns the kind of value. A member name is a `Text`.
    pub fn kind(self) -> Kind
        ensures { result ≡ kind_of (tree self.entry) }
    {
        let token = token_at(self.source.tokens, self.index);
        kind_at(self.source.line, token.start as usize)
    }

    /// Returns the place of its first byte in the line, from 0. For a string that is the opening
    /// quote.
    #[tactic(auto, using(crate::proofs::Views::start_shown), unfolding(crate::specs::View::tree))]
    pub fn start(self) -> u64
        ensures { result ≡ start_of (tree self.entry) }
    {
        token_at(self.source.tokens, self.index).start as u64
    }

    /// Returns its bytes in the line, as they are spelled there.
    #[tactic(auto, using(crate::proofs::Views::spelling_shown), unfolding(crate::specs::View::tree, crate::specs::View::line_of))]
    pub fn bytes(self) -> &'a [u8]
        ensures spelling { result.now ≡ spelling_of (line_of self.entry) (tree self.entry) }
        ensures filled { 0 < length result.now }
    {
        let token = token_at(self.source.tokens, self.index);
        &self.source.line[token.start as usize..token.stop as usize]
    }

    /// Returns the line that it is in.
    #[inline(always)]
    #[tactic(auto, unfolding(crate::specs::View::line_of))]
    pub fn line(self) -> &'a [u8]
        ensures { result.now ≡ line_of self.entry }
    {
        let source = self.source;
        source.line
    }

    /// Returns where it is in the line: the place of its first byte, and of the first byte after
    /// it.
    #[inline(always)]
    pub fn span(self) -> (usize, usize)
        ensures order { result.0 < result.1 }
        ensures within { result.1 ≤ length (line_of self.entry) }
        ensures spelling { slice_range (line_of self.entry) result.0 result.1
            ≡ spelling_of (line_of self.entry) (tree self.entry) }
        ensures kind { kind_by (byte (line_of self.entry) result.0) ≡ kind_of (tree self.entry) }
        ensures number { kind_of (tree self.entry) ≡ Number
            → IsNumber (slice_range (line_of self.entry) result.0 result.1) }
    {
        let token = token_at(self.source.tokens, self.index);
        (token.start as usize, token.stop as usize)
    }

    /// Returns how many values and member names it is: itself and everything in it.
    pub fn size(self) -> u32
        ensures { result ≡ size (tree self.entry) }
    {
        (self.source.after(self.index) - self.index) as u32
    }

    /// Returns the items of an array, in order (RFC 8259, section 5). Any other value has none.
    #[tactic(auto, using(crate::proofs::SourceWalks::items_from_link, crate::proofs::SourceWalks::few_trees, crate::proofs::SourceWalks::small_items), unfolding(crate::specs::View::tree, crate::specs::View::items_left, crate::specs::View::line_of, crate::specs::View::items_line, crate::specs::View::source_of, crate::specs::View::items_source))]
    pub fn items(self) -> Items<'a>
        ensures items { items_left result ≡ items_of (tree self.entry) }
        ensures line { items_line result ≡ line_of self.entry }
        ensures source { items_source result ≡ source_of self.entry }
        ensures few { length (items_left result) < 2 ^ 63 }
        ensures sizes { total_size (items_left result) < 2 ^ 31 }
    {
        let stop = items_end(self.kind(), self.source.after(self.index));
        Items {
            source: self.source,
            next: self.index + 1,
            stop,
        }
    }

    /// Returns the items of an array after its first ones, without a walk over these. `size` is the
    /// number of values and names in the first ones ([`Node::size`]).
    pub fn items_behind(self, size: u32) -> Items<'a>
        ensures items { (k : ℕ) → k ≤ length (items_of (tree self.entry))
            → total_size (take k (items_of (tree self.entry))) ≡ size
            → items_left result ≡ drop k (items_of (tree self.entry)) }
        ensures line { items_line result ≡ line_of self.entry }
        ensures source { items_source result ≡ source_of self.entry }
    {
        let stop = items_end(self.kind(), self.source.after(self.index));
        Items {
            source: self.source,
            next: self.index + 1 + size as usize,
            stop,
        }
    }

    /// Returns the item of an array that [`Node::items_behind`] begins with. It looks at no token,
    /// so a caller must show that there is an item.
    #[inline(always)]
    pub fn item_behind(self, size: u32) -> Node<'a>
        requires { (k : ℕ) × (k < length (items_of (tree self))) × (total_size (take k (items_of (tree self))) ≡ size) }
        ensures tree { (k : ℕ) → k < length (items_of (tree self.entry))
            → total_size (take k (items_of (tree self.entry))) ≡ size
            → (rest : List Tree) × (drop k (items_of (tree self.entry)) ≡ tree result ∷ rest) }
        ensures line { line_of result ≡ line_of self.entry }
        ensures source { source_of result ≡ source_of self.entry }
    {
        Node {
            source: self.source,
            index: self.index + 1 + size as usize,
        }
    }

    /// Returns the walk over the members of an object. Any other value has none.
    #[tactic(auto, using(crate::proofs::SourceWalks::members_from_link), unfolding(crate::specs::View::tree, crate::specs::View::members_left, crate::specs::View::source_of, crate::specs::View::members_source))]
    #[inline(always)]
    fn walk(self) -> Members<'a>
        ensures begun { 0 < result.next }
        ensures members { members_left result ≡ members_of (tree self.entry) }
        ensures source { members_source result ≡ source_of self.entry }
    {
        let stop = members_end(self.kind(), self.source.after(self.index));
        Members {
            source: self.source,
            next: self.index + 1,
            stop,
        }
    }

    /// Returns the members of an object, names with values, in order (RFC 8259, section 4). Any
    /// other value has none.
    pub fn members(self) -> Members<'a>
        ensures members { members_left result ≡ members_of (tree self.entry) }
        ensures order { AreNamesInOrder (members_left result) }
        ensures values { AreValuesInOrder (members_left result) }
        ensures line { members_line result ≡ line_of self.entry }
        ensures source { members_source result ≡ source_of self.entry }
        ensures few { length (members_left result) < 2 ^ 63 }
    {
        self.walk()
    }
}

/// The bytes of an array of three whole numbers with its brackets, if none of the numbers can have
/// more than 18 bytes.
const FEW_BYTES: usize = 21;

impl<'a> Node<'a> {
    ghost use Rattle.std.specs.Prelude.{All};
    ghost use Rattle.cj_spans.specs.declared.token.Kind.TheVariants.{Array};
    ghost use Rattle.cj_spans.specs.Meaning.Parts.{kind_of, items_of};
    ghost use Rattle.cj_spans.specs.View.{tree, line_of};
    ghost use Rattle.cj_spans.specs.Wholes.{IsShortWhole};

    /// Returns whether the three tokens after its own have at most 18 bytes each.
    #[inline(always)]
    fn has_short_items(self) -> bool
        requires { self.index + 4 ≤ length self.source.tokens.now }
        ensures { IsTrue result → (k : ℕ) (t : TokenOf) → self.entry.index < k → k < self.entry.index + 4
            → slice_get self.entry.source.tokens.now k ≡ Some t → t.stop ≤ t.start + 18 }
    {
        self.source.is_short(self.index + 1)
            && self.source.is_short(self.index + 2)
            && self.source.is_short(self.index + 3)
    }

    /// Returns whether it is an array of three whole numbers, of at most 18 bytes each, without
    /// white space. It looks at 16 bytes at a time, and not at each number. False for three such
    /// numbers of more than 32 bytes, and near the start of the line.
    #[inline(always)]
    pub fn is_short_triple(self) -> bool
        ensures array { IsTrue result → kind_of (tree self.entry) ≡ Array }
        ensures three { IsTrue result → length (items_of (tree self.entry)) ≡ 3 }
        ensures wholes { IsTrue result → All (IsShortWhole (line_of self.entry)) (items_of (tree self.entry)) }
    {
        let token = token_at(self.source.tokens, self.index);
        let (start, stop) = (token.start as usize, token.stop as usize);
        if self.source.line[start] != b'[' || self.source.after(self.index) != self.index + 4 {
            return false;
        }
        are_whole_signs(self.source.line, start + 1, stop - 1)
            && (stop - start <= FEW_BYTES || self.has_short_items())
    }
}

impl<'a> Node<'a> {
    ghost use Rattle.std.specs.Prelude.{true, false};
    ghost use Rattle.cj_spans.specs.Marks.{IsMarked, is_marked_at};
    ghost use Rattle.cj_spans.specs.Preorder.{spans_of};
    ghost use Rattle.cj_spans.specs.View.{tree, line_of, source_of, tokens_in, tree_in, tree_at};

    /// Returns its number in the line. [`Node::at`] finds the node again by this number, and
    /// [`crate::set_mark`] takes it as that of the token. A number takes 4 bytes, a node ten times
    /// as many.
    #[tactic(auto, using(crate::proofs::SourceWalks::number_linked), unfolding(crate::specs::View::tree, crate::specs::View::source_of, crate::specs::View::tree_in, crate::specs::View::line_of, crate::specs::View::tokens_in))]
    pub fn number(self) -> u32
        ensures node { tree_in (source_of self.entry) result ≡ tree self.entry }
        ensures token { tree_at (line_of self.entry) (spans_of (tokens_in (source_of self.entry))) result
            ≡ tree self.entry }
        ensures within { result < length (tokens_in (source_of self.entry)) }
    {
        self.index as u32
    }

    /// Returns whether its token has a mark.
    pub fn marked(self) -> bool
        ensures yes { result ≡ true → IsMarked (line_of self.entry) (tokens_in (source_of self.entry))
            (tree self.entry) }
        ensures no { result ≡ false → IsMarked (line_of self.entry) (tokens_in (source_of self.entry))
            (tree self.entry) → ⊥ }
    {
        has_mark(token_at(self.source.tokens, self.index))
    }

    /// Returns the node with this number in the same line, or the last node if there is none. So
    /// any number is allowed, for example in a comparison that a sort uses.
    #[tactic(auto, unfolding(crate::specs::View::tree, crate::specs::View::source_of, crate::specs::View::tree_in))]
    pub fn at(self, number: u32) -> Node<'a>
        ensures tree { tree result ≡ tree_in (source_of self.entry) number }
        ensures source { source_of result ≡ source_of self.entry }
    {
        Node {
            source: self.source,
            index: (number as usize).min(self.source.tokens.len() - 1),
        }
    }
}

impl<'a> Node<'a> {
    ghost use Rattle.std.specs.Prelude.{option_map, IfSome, ◌↔◌, true};
    ghost use Rattle.std.specs.Str.{chars};
    ghost use Rattle.cj_spans.specs.Initials.{begin_apart, first_code_of};
    ghost use Rattle.cj_spans.specs.Meaning.Parts.{text_of, are_same_texts, has_text, member_of, members_of};
    ghost use Rattle.cj_spans.specs.inner.Decoding.{code_points_left};
    ghost use Rattle.cj_spans.specs.Meaning.Text.{text};
    ghost use Rattle.cj_spans.specs.Tail.{tail_of};
    ghost use Rattle.cj_spans.specs.Hash.{hash_of};
    ghost use Rattle.cj_spans.specs.Order.{compare_texts, front_word};
    ghost use Rattle.cj_spans.specs.View.{tree, tree_in, line_of, source_of};

    /// Returns the spelling of a string or a name, with its quotes. None for any other value.
    fn spelling(self) -> Option<&'a [u8]>
        ensures text { option_map (λ s. text s.now) result ≡ text_of (tree self.entry) }
        ensures filled { IfSome result (λ s. 0 < length s.now) }
    {
        match self.kind() {
            Kind::Text => Some(self.bytes()),
            _ => None,
        }
    }

    /// Returns the code points of a string or a name, one at a time. None for any other value.
    fn points(self) -> Option<CodePoints<'a>>
        ensures { option_map code_points_left result ≡ text_of (tree self.entry) }
    {
        match self.spelling() {
            Some(spelling) => Some(CodePoints::of(spelling)),
            None => None,
        }
    }

    /// Returns the first code point of the text of a string or a name, with escapes undone (RFC
    /// 8259, section 7). None for an empty text and for any other value.
    pub fn first_code(self) -> Option<u32>
        ensures { result ≡ first_code_of (tree self.entry) }
    {
        match self.points() {
            Some(points) => {
                let mut points = points;
                points.next()
            }
            None => None,
        }
    }

    /// Returns whether it is a string or a name with this text.
    ///
    /// Texts are compared by code points, with escapes undone (RFC 8259, sections 7 and 8.3). The
    /// law [`crate::laws::one_text`] says what text a string has.
    #[inline(always)]
    pub fn text_is(self, text: &str) -> bool
        ensures test { result ≡ has_text (chars text.now) (tree self.entry) }
        ensures means { IsTrue result ↔ (text_of (tree self.entry) ≡ Some (chars text.now)) }
    {
        match self.spelling() {
            Some(spelling) => spells(spelling, text),
            None => false,
        }
    }

    /// Returns whether it is a string or a name whose spelling is this text between quotes.
    #[inline(always)]
    fn is_spelled(self, text: &str) -> bool
        ensures { result ≡ true → has_text (chars text.now) (tree self.entry) ≡ true }
    {
        match self.spelling() {
            Some(spelling) => is_spelled_so(spelling, text),
            None => false,
        }
    }

    /// Returns whether both are strings or names with the same text.
    pub fn same_text(self, other: Node) -> bool
        ensures test { result ≡ are_same_texts (text_of (tree self.entry)) (text_of (tree other.entry)) }
        ensures means { IsTrue result ↔ ((t : List ℕ) × (text_of (tree self.entry) ≡ Some t)
            × (text_of (tree other.entry) ≡ Some t)) }
    {
        match self.spelling() {
            Some(spelling) => match other.spelling() {
                Some(others) => spell_one_text(spelling, others),
                None => false,
            },
            None => false,
        }
    }

    /// Compares two strings or names by their texts: code point by code point, in any spelling.
    ///
    /// A text comes before the longer texts that begin with it. Any other value comes before all
    /// texts. Two texts are equal in this order exactly if they are the same.
    pub fn compare_text(self, other: Node) -> Ordering
        ensures { result ≡ compare_texts (text_of (tree self.entry)) (text_of (tree other.entry)) }
    {
        match (self.spelling(), other.spelling()) {
            (Some(spelling), Some(others)) => compare_spellings(spelling, others),
            (Some(_), None) => Ordering::Greater,
            (None, Some(_)) => Ordering::Less,
            (None, None) => Ordering::Equal,
        }
    }

    /// Compares a string or a name with this text, as [`Node::compare_text`] compares texts.
    pub fn compare_with(self, text: &str) -> Ordering
        ensures { result ≡ compare_texts (text_of (tree self.entry)) (Some (chars text.now)) }
    {
        match self.spelling() {
            Some(spelling) => compare_spelling_with(spelling, text),
            None => Ordering::Less,
        }
    }

    /// Returns the first eight code points of the text of a string or a name as one number. 0 for
    /// any other value.
    ///
    /// A text with a lesser number is less, by the law [`crate::laws::words_are_ordered`]. So two
    /// numbers order most texts, without a look at the line.
    pub fn text_word(self) -> u64
        ensures { result ≡ front_word (text_of (tree self.entry)) }
    {
        match self.points() {
            Some(points) => word(points),
            None => 0,
        }
    }

    /// Returns the last eight code points of the text of a string or a name as one number. 0 for
    /// any other value.
    ///
    /// Equal texts have equal numbers in any spelling. So texts that begin alike and end
    /// differently are distinguished without a look at the line.
    pub fn text_tail(self) -> u64
        ensures { result ≡ tail_of (text_of (tree self.entry)) }
    {
        match self.points() {
            Some(points) => tail(points),
            None => 0,
        }
    }

    /// Returns the hash of all code points of the text of a string or a name. 0 for any
    /// other value.
    ///
    /// Equal texts have equal numbers in any spelling, and nearly all different texts have
    /// different numbers. So most texts are distinguished without a look at the line.
    pub fn text_hash(self) -> u64
        ensures { result ≡ hash_of (text_of (tree self.entry)) }
    {
        match self.points() {
            Some(points) => hash(points),
            None => 0,
        }
    }

    /// Returns the value of the first member whose name has this text. None if there is no such
    /// member, or the value is no object.
    #[inline(always)]
    pub fn get(self, name: &str) -> Option<Node<'a>>
        ensures value { option_map tree result ≡ member_of (chars name.now) (tree self.entry) }
        ensures line { IfSome result (λ n. line_of n ≡ line_of self.entry) }
        ensures source { IfSome result (λ n. source_of n ≡ source_of self.entry) }
    {
        for (key, value) in self.members() {
            if key.text_is(name) {
                return Some(value);
            }
        }
        None
    }

    /// Returns the node of this number, as [`Node::at`] does. None if there is no number.
    #[inline(always)]
    #[tactic(auto, unfolding(crate::specs::View::line_of, crate::specs::View::source_of))]
    pub fn at_if(self, number: Option<u32>) -> Option<Node<'a>>
        ensures tree { option_map tree result ≡ option_map (tree_in (source_of self.entry)) number }
        ensures line { IfSome result (λ n. line_of n ≡ line_of self.entry) }
        ensures source { IfSome result (λ n. source_of n ≡ source_of self.entry) }
    {
        match number {
            Some(number) => Some(self.at(number)),
            None => None,
        }
    }

    /// Returns the numbers of what [`Node::get`] returns for each of four names, by one walk over
    /// the members, and whether their names begin apart. [`Node::at_if`] returns the node of a
    /// number. Numbers are kept in place of nodes, since the compiler does not see that several
    /// nodes share their line and tokens.
    #[inline(always)]
    pub fn get_four(self, a: &str, b: &str, c: &str, d: &str) -> FourMembers
        ensures first { option_map (tree_in (source_of self.entry)) result.first
            ≡ member_of (chars a.now) (tree self.entry) }
        ensures second { option_map (tree_in (source_of self.entry)) result.second
            ≡ member_of (chars b.now) (tree self.entry) }
        ensures third { option_map (tree_in (source_of self.entry)) result.third
            ≡ member_of (chars c.now) (tree self.entry) }
        ensures fourth { option_map (tree_in (source_of self.entry)) result.fourth
            ≡ member_of (chars d.now) (tree self.entry) }
        ensures apart { result.apart ≡ true → begin_apart (members_of (tree self.entry)) ≡ true }
    {
        let members = self.walk();
        let mut places = [0; SLOTS];
        let apart = members.note_all(&mut places);
        FourMembers {
            first: members.find(&places, a),
            second: members.find(&places, b),
            third: members.find(&places, c),
            fourth: members.find(&places, d),
            apart,
        }
    }
}

/// The numbers of the values of four members of an object, each if it is there.
#[derive(Clone, Copy)]
pub struct FourMembers {
    pub first: Option<u32>,
    pub second: Option<u32>,
    pub third: Option<u32>,
    pub fourth: Option<u32>,
    /// Whether the names of all members begin with characters of different slots. Then the names
    /// are distinct.
    pub apart: bool,
}

/// How many slots there are. The slot of a character is the remainder of its code.
const SLOTS: usize = 32;

impl<'a> Members<'a> {
    ghost use Rattle.std.specs.Prelude.{◌%◌, option_map, replicate, [], true, IfSome};
    ghost use Rattle.std.specs.Str.{chars};
    ghost use Rattle.cj_spans.specs.Initials.{begin_apart, head};
    ghost use Rattle.cj_spans.specs.inner.Noted.{AreNoted, members_from, note, is_free};
    ghost use Rattle.cj_spans.specs.Meaning.Parts.{first_named};
    ghost use Rattle.cj_spans.specs.View.{tree_in, members_left, members_source};

    /// Returns the slot of the first character of a text. None if it has none that is ASCII.
    #[tactic(auto, using(crate::proofs::Quoted::plain_character))]
    #[inline(always)]
    fn slot_of(text: &str) -> Option<usize>
        ensures within { IfSome result (λ s. s < 32) }
        ensures slot { IfSome result (λ s. (c : ℕ) × (head (chars text.now) ≡ Some c) × (c % 32 ≡ s)) }
    {
        let bytes = text.as_bytes();
        if bytes.is_empty() || bytes[0] >= 128 {
            return None;
        }
        Some(bytes[0] as usize % SLOTS)
    }

    /// Notes the place of a member whose name begins with this character, if its slot has none.
    /// Returns whether it had none.
    #[inline(always)]
    fn note_place(code: Option<u32>, place: u32, places: &mut [u32; SLOTS]) -> bool
        ensures places { places.new ≡ note code place places.old }
        ensures free { result ≡ is_free code places.old }
    {
        let Some(code) = code else {
            return false;
        };
        let slot = (code % SLOTS as u32) as usize;
        if places[slot] != 0 {
            return false;
        }
        places[slot] = place;
        true
    }

    /// Notes the place of the first member for each slot. Returns whether no slot has two members.
    #[inline(always)]
    fn note_all(self, places: &mut [u32; SLOTS]) -> bool
        requires begun { 0 < self.next }
        requires none { places.old ≡ replicate 32 0 }
        ensures noted { AreNoted self.entry [] places.new }
        ensures apart { result ≡ true → begin_apart (members_left self.entry) ≡ true }
    {
        let mut apart = true;
        let mut next = self.next;
        while next < self.stop {
            let name = Node {
                source: self.source,
                index: next,
            };
            if !Members::note_place(name.first_code(), next as u32, places) {
                apart = false;
            }
            next = self.source.after(next + 1);
        }
        apart
    }

    /// Returns the number of the value of the first member whose name has this text, from a
    /// place on.
    ///
    /// Few names are looked for behind another of the same slot. So this function is never inlined.
    #[cold]
    #[inline(never)]
    fn find_from(self, place: usize, text: &str) -> Option<u32>
        requires whole { AreWhole self.source.tokens.now place self.stop }
        requires named { ShowMembers self.source.line.now self.source.tokens.now place self.stop }
        ensures { option_map (tree_in (members_source self.entry)) result
            ≡ first_named (chars text.now) (members_from self.entry place) }
    {
        let left = Members {
            source: self.source,
            next: place,
            stop: self.stop,
        };
        for (key, value) in left {
            if key.text_is(text) {
                return Some(value.number());
            }
        }
        None
    }

    /// Returns the number of the value of the first member with this name. The places of all
    /// members are noted. Most names are the first of their slot, and are spelled without escapes.
    #[inline(always)]
    fn find(self, places: &[u32; SLOTS], name: &str) -> Option<u32>
        requires { AreNoted self [] places.now }
        ensures { option_map (tree_in (members_source self.entry)) result
            ≡ first_named (chars name.now) (members_left self.entry) }
    {
        let Some(slot) = Members::slot_of(name) else {
            return self.find_from(self.next, name);
        };
        let place = places[slot] as usize;
        if place == 0 {
            return None;
        }
        let key = Node {
            source: self.source,
            index: place,
        };
        if !key.is_spelled(name) {
            return self.find_from(place, name);
        }
        let value = Node {
            source: self.source,
            index: place + 1,
        };
        Some(value.number())
    }
}

impl<'a> Iterator for Items<'a> {
    ghost use Rattle.std.specs.Iterator.{item_count};
    ghost use Rattle.cj_spans.specs.View.{items_left, YieldsItem};

    type Item = Node<'a>;

    ghost next_gives = { YieldsItem };

    ghost remaining = { item_count items_left };

    fn next(&mut self) -> Option<Node<'a>> {
        let source = self.source;
        let index = self.next;
        if index >= self.stop {
            return None;
        }
        self.next = source.after(index);
        Some(Node { source, index })
    }
}

impl<'a> Iterator for Members<'a> {
    ghost use Rattle.std.specs.Iterator.{item_count};
    ghost use Rattle.cj_spans.specs.View.{members_left, YieldsMember};

    type Item = (Node<'a>, Node<'a>);

    ghost next_gives = { YieldsMember };

    ghost remaining = { item_count members_left };

    fn next(&mut self) -> Option<(Node<'a>, Node<'a>)> {
        let source = self.source;
        let name = self.next;
        if name >= self.stop {
            return None;
        }
        let value = name + 1;
        self.next = source.after(value);
        Some((
            Node {
                source,
                index: name,
            },
            Node {
                source,
                index: value,
            },
        ))
    }
}

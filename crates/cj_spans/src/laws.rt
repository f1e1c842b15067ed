//! Laws of the definitions that contracts cite, each proved once.
ghost use Rattle.std.specs.Prelude.{◌≡◌, ◌≢◌, ◌<◌, ◌≤◌, ◌↔◌, List, ℕ, Option as OptionOf, IsTrue, nat_eq, nat_lt};
ghost use Rattle.std.specs.Prelude.{codes};
ghost use Rattle.std.specs.Char.{digit_value};
ghost use Rattle.std.specs.List.{list_any};
ghost use Rattle.std.specs.Str.{chars, IsUtf8};
ghost use Rattle.std.specs.Cmp.{IsTotalOrder};
ghost use Rattle.std.specs.declared.cmp.Ordering.TheVariants.{Less, Equal};
ghost use Rattle.cj_spans.specs.Order.{compare, compare_texts, front_word};
ghost use Rattle.cj_spans.specs.Meaning.Signs.{backslash, quote, space};
ghost use Rattle.cj_spans.specs.Meaning.Spelling.{IsString, is_hex, is_plain, is_escape};
ghost use Rattle.cj_spans.specs.Meaning.Text.{text, body_of};
ghost use Rattle.cj_spans.specs.Meaning.StandFor.{StandFor};
ghost use Rattle.cj_spans.specs.Meaning.Judgement.{Judgement, SaySame};

/// A string has one text (RFC 8259, section 7). The grammar gives code points for the characters
/// between the quotes of a string in UTF-8. The text of the string is these code points and no
/// others.
#[tactic(auto, using(crate::proofs::Strings::text_of_string, crate::proofs::Quoted::stands_once), unfolding(crate::specs::Meaning::Text::text))]
pub fn one_text()
    ensures stands { (s : List ℕ) → IsString s → IsUtf8 s → StandFor (chars (body_of s)) (text s) }
    ensures only { (s ps : List ℕ) → StandFor (chars (body_of s)) ps → ps ≡ text s }
{}

/// A line has exactly one judgement under a depth limit. It is a JSON text with one tree within the
/// limit. Or it is no JSON text from one byte on, or too deep from one byte on.
#[tactic(auto, using(crate::proofs::Judgements::judgement, crate::proofs::Judgements::say_same))]
pub fn one_judgement()
    ensures judged { (b : List ℕ) (d : ℕ) → Judgement b d }
    ensures only { (b : List ℕ) (d : ℕ) (j k : Judgement b d) → SaySame j k }
{}

/// The classes of bytes in the grammar of strings (RFC 8259, section 7), in other words. A
/// hexadecimal digit is a byte whose value as a digit is below 16. A byte is plain from the space
/// on, unless it is the quote or the backslash. Eight bytes other than `u` may follow a backslash.
pub fn bytes_of_strings()
    ensures hex { (b : ℕ) → is_hex b ≡ nat_lt (digit_value b) 16 }
    ensures plain { (b : ℕ) → IsTrue (is_plain b) ↔ ((space ≤ b) × (b ≢ quote) × (b ≢ backslash)) }
    ensures escape { (b : ℕ) → is_escape b ≡ list_any (nat_eq b) (codes "\"\\/bfnrt") }
{}

/// Texts have one total order: by code points, one after another. A value that is no text comes
/// first. Two texts are equal in this order exactly if they are the same.
pub fn texts_are_ordered()
    ensures total { IsTotalOrder compare_texts }
    ensures same { (s t : List ℕ) → (compare s t ≡ Equal) ↔ (s ≡ t) }
{}

/// The result of [`crate::Node::text_word`] follows the order of texts: a text with a lesser word
/// is less.
#[tactic(auto, using(crate::proofs::Strings::less_by_words))]
pub fn words_are_ordered()
    ensures { (s t : OptionOf (List ℕ)) → front_word s < front_word t → compare_texts s t ≡ Less }
{}

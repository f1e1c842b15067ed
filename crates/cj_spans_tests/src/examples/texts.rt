//! The texts of worked spellings: each contract is a theorem about one spelling.
ghost use Rattle.std.specs.Prelude.{◌≡◌, ◌∷◌, [], codes, None, Some};
ghost use Rattle.cj_spans.specs.Order.{front_word};
ghost use Rattle.cj_spans.specs.Meaning.Text.{text};

/// The empty string.
pub fn empty_text()
    ensures { text (codes "\"\"") ≡ [] }
{}

/// An escaped letter is that letter.
pub fn escaped_letter()
    ensures { text (codes "\"\\u0062\"") ≡ codes "b" }
{}

/// The short escapes.
pub fn short_escapes()
    ensures { text (codes "\"\\\"\\\\\\/\\b\\f\\n\\r\\t\"") ≡ 34 ∷ 92 ∷ 47 ∷ 8 ∷ 12 ∷ 10 ∷ 13 ∷ 9 ∷ [] }
{}

/// An escaped pair of surrogates is one code point, with digits in either case.
pub fn escaped_pair()
    ensures { text (codes "\"\\ud83d\\uDE00\"") ≡ 128512 ∷ [] }
{}

/// A surrogate alone is a code point of its own.
pub fn lone_surrogate()
    ensures { text (codes "\"\\ud83d\"") ≡ 55357 ∷ [] }
{}

/// Two surrogates in the reverse order are no pair.
pub fn turned_pair()
    ensures { text (codes "\"\\ude00\\ud83d\"") ≡ 56832 ∷ 55357 ∷ [] }
{}

/// Only a first surrogate directly before a second one makes a pair.
pub fn pair_after_lone()
    ensures { text (codes "\"\\ud83d\\ud83d\\ude00\"") ≡ 55357 ∷ 128512 ∷ [] }
{}

/// A letter between two surrogates separates them.
pub fn parted_pair()
    ensures { text (codes "\"\\ud83dx\\ude00\"") ≡ 55357 ∷ 120 ∷ 56832 ∷ [] }
{}

/// An escaped backslash begins no escape.
pub fn escaped_backslash()
    ensures { text (codes "\"\\\\u0062\"") ≡ codes "\\u0062" }
{}

/// Characters of two, three and four bytes in UTF-8 (RFC 3629).
pub fn longer_characters()
    ensures { text (34 ∷ 195 ∷ 169 ∷ 226 ∷ 130 ∷ 172 ∷ 240 ∷ 159 ∷ 152 ∷ 128 ∷ 34 ∷ []) ≡ 233 ∷ 8364 ∷ 128512 ∷ [] }
{}

/// The first eight code points as a number. The first one has the same weight in a shorter text. A
/// code point from 255 on ends the number.
pub fn words_of_texts()
    ensures none { front_word None ≡ 0 }
    ensures short { front_word (Some (codes "ab")) ≡ 0x6162_0000_0000_0000 }
    ensures long { front_word (Some (codes "abcdefghi")) ≡ 0x6162_6364_6566_6768 }
    ensures cut { front_word (Some (97 ∷ 8364 ∷ 98 ∷ [])) ≡ 0x61FF_0000_0000_0000 }
    ensures edge { front_word (Some (97 ∷ 255 ∷ 98 ∷ [])) ≡ 0x61FF_0000_0000_0000 }
    ensures below { front_word (Some (97 ∷ 254 ∷ 98 ∷ [])) ≡ 0x61FE_6200_0000_0000 }
{}

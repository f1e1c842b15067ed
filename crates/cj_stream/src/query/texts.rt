//! The parts of a query that are lists of texts.
ghost use Rattle.std.specs.Prelude.{◌≡◌, ◌++◌, ◌∷◌, [], map, vec_items, string_bytes, IfOk, OnOk, OnErr};
ghost use Rattle.cj_stream.specs.Adding.{with_text};
ghost use Rattle.cj_stream.specs.Query.{texts_of};
ghost use Rattle.cj_stream.specs.Sink.{HasRisen, counted};

use cj_budget::{NoMemory, Refusals};
use std::alloc::Global;

/// Returns an owned copy of a text. Counts a failed growth.
pub fn own_text(
    alloc: Global,
    text: &str,
    failed_growths: &mut Refusals,
) -> Result<String, NoMemory>
    ensures ok { IfOk result (λ own. string_bytes own ≡ text.now) }
    ensures cause { OnErr result (HasRisen failed_growths.old failed_growths.new) }
    ensures count { failed_growths.new ≡ counted failed_growths.old result }
{
    let mut own = String::new(alloc);
    failed_growths.note(own.try_reserve_exact(text.len()))?;
    let _never_fails = own.push_str(text);
    Ok(own)
}

/// Adds a copy of a text at the end of a list. A failed growth changes nothing.
pub fn push_copy(
    alloc: Global,
    texts: &mut Vec<String>,
    text: &str,
    failed_growths: &mut Refusals,
) -> Result<(), NoMemory>
    ensures ok { OnOk result
        (map string_bytes (vec_items texts.new) ≡ map string_bytes (vec_items texts.old) ++ text.now ∷ []) }
    ensures err { OnErr result (vec_items texts.new ≡ vec_items texts.old) }
    ensures cause { OnErr result (HasRisen failed_growths.old failed_growths.new) }
    ensures count { failed_growths.new ≡ counted failed_growths.old result }
{
    let text = own_text(alloc, text, failed_growths)?;
    failed_growths.note(texts.push(text))
}

/// Adds a text at the end of a part. A part that was not set begins empty. A failed growth changes
/// nothing.
pub fn add_text(
    alloc: Global,
    part: &mut Option<Vec<String>>,
    text: &str,
    failed_growths: &mut Refusals,
) -> Result<(), NoMemory>
    ensures ok { OnOk result (texts_of part.new ≡ with_text text.now (texts_of part.old)) }
    ensures err { OnErr result (texts_of part.new ≡ texts_of part.old) }
    ensures cause { OnErr result (HasRisen failed_growths.old failed_growths.new) }
    ensures count { failed_growths.new ≡ counted failed_growths.old result }
{
    match part {
        Some(texts) => push_copy(alloc, texts, text, failed_growths),
        None => {
            let mut texts = Vec::new(alloc);
            push_copy(alloc, &mut texts, text, failed_growths)?;
            *part = Some(texts);
            Ok(())
        }
    }
}

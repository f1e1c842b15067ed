//! What a line is as a text.
//!
//! Nothing here knows the header or the number of the line, so the results hold with any. A caller
//! asks first whether a later line is blank. The first line never is.
ghost use Rattle.std.specs.Prelude.{◌≡◌, ◌≤◌, ◌+◌, ◌/◌, ◌&&◌, length, false, IsTrue, OnOk, OnErr};
ghost use Rattle.std.specs.List.{list_all};
ghost use Rattle.std.specs.Str.{is_utf8};
ghost use Rattle.cj_stream.specs.Bound.{is_spelled};
ghost use Rattle.cj_stream.specs.Meaning.Verdict.{is_blank_byte};
ghost use Rattle.cj_stream.specs.Judging.{Says, ShowsTree};
ghost use Rattle.cj_stream.specs.Scanning.{HoldsTree, tree_lists};
ghost use Rattle.cj_spans.proofs.Judgements.{judgement};
ghost use Rattle.cj_spans.specs.Marks.{AreUnmarked};
ghost use Rattle.cj_spans.specs.Scan.{KeepsLaw};

use cj_budget::{Bounded, Stack};
use cj_spans::{Finding, LineFault, Reason, Token, scan_reserved};

/// Returns whether all bytes are spaces, tabs or CR.
pub fn is_blank(content: &[u8]) -> bool
    ensures { result ≡ list_all is_blank_byte content.now }
{
    content
        .iter()
        .all(|b| *b == b' ' || *b == b'\t' || *b == b'\r')
}

/// Reads the content of a line as a JSON text. The content is not blank, or that of the first line.
/// It is within the line limit.
///
/// The lists take its tokens and open containers. They have reserved memory for any such line, so
/// nothing is allocated.
///
/// # Errors
///
/// The byte at which the content is not such a text, and the reason.
pub fn judge(content: &[u8], tokens: &mut Bounded<Token>, opened: &mut Stack) -> Result<(), Finding>
    requires short { length content.now ≤ 1073741824 }
    requires room { (length content.now + opened.old.limit + 1) / 2 ≤ tokens.old.limit }
    requires reserved { IsTrue tokens.old.reserved × IsTrue opened.old.reserved }
    ensures says { Says content.now opened.old.limit result }
    ensures tree { OnOk result (ShowsTree content.now opened.old.limit tokens.new.elements) }
    ensures unmarked { OnOk result (AreUnmarked tokens.new.elements) }
    ensures holds { OnOk result
        (HoldsTree content.now (tree_lists tokens.old opened.old) (tree_lists tokens.new opened.new)) }
    ensures unread { OnErr result (is_utf8 content.now && is_spelled (judgement content.now opened.old.limit) ≡ false) }
    ensures law { KeepsLaw content.now tokens.old tokens.new opened.old opened.new }
{
    let (place, reason) = match scan_reserved(content, tokens, opened) {
        Ok(()) => return Ok(()),
        Err(LineFault::NotUtf8(place)) => (place, Reason::NotUtf8),
        Err(LineFault::Syntax(place)) => (place, Reason::Syntax),
        Err(LineFault::TooDeep(place)) => (place, Reason::TooDeep),
    };
    Err(Finding { place, reason })
}

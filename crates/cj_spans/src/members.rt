//! Members of an object without white space: names with their colons, values that are strings, and
//! the brackets of values that are containers.
//!
//! The scanner could read any line without this module, one byte after another. Here several names,
//! strings and brackets are read in one go, and everything else is left to the scanner.
ghost use Rattle.std.specs.Prelude.{◌≡◌, ◌+◌, ◌^◌, ◌≤◌, ◌<◌, ◌++◌, ◌∷◌, ◌↔◌, [], length, true, false, ℕ};
ghost use Rattle.std.specs.Prelude.{IfOk, IfSome, IfNone, IsTrue};
ghost use Rattle.cj_budget.specs.Bounded.{Becomes, BoundedList};
ghost use Rattle.cj_spans.specs.declared.token.Kind.TheVariants.{Object};
ghost use Rattle.cj_spans.specs.declared.token.Token.{Token as TokenOf};
ghost use Rattle.cj_spans.specs.declared.step.Mode.TheVariants.{Ready, FirstItem};
ghost use Rattle.cj_spans.specs.Meaning.Json.{byte as byte_of};
ghost use Rattle.cj_spans.specs.Preorder.{token_at};
ghost use Rattle.cj_spans.specs.inner.Machine.{IsQuoted, BeginsName, InObject, StaysInObjectNext};
ghost use Rattle.cj_spans.specs.inner.Pass.{Standing, Stands, StandsIn, LeadsIn, GoesInto, IsInside};

use crate::bytes::stands_at;
use crate::fault::LineFault;
use crate::lex::plain_string_stop;
use crate::step::{Inner, Mode, Move, Next, open, outside_arrays};
use crate::token::{Kind, Token, keep_atom};
use cj_budget::{Bounded, Stack};

/// Reads the string that begins at `place`, and keeps its token. Returns where it ends. None if no
/// string begins there, or if a byte of it is not plain.
#[inline(always)]
fn read_string(line: &[u8], place: usize, tokens: &mut Bounded<Token>) -> Option<usize>
    requires short { length line.now < 2 ^ 31 }
    requires small { length tokens.old.elements < 2 ^ 31 }
    requires within { place < length line.now }
    requires room { length tokens.old.elements < tokens.old.limit }
    requires reserved { IsTrue tokens.old.reserved }
    ensures string { IfSome result (λ k. IsQuoted line.now place k
        × Becomes tokens.old
        (tokens.old.elements ++ token_at place k (length tokens.old.elements + 1) ∷ []) tokens.new) }
    ensures none { IfNone result (tokens.new ≡ tokens.old) }
{
    let stop = plain_string_stop(line, place)?;
    keep_atom(place, stop, tokens);
    Some(stop)
}

/// Continues where a name may begin: past the name and its colon, or past as much of them as is
/// there.
#[inline(always)]
fn pass_name(line: &[u8], from: Next, tokens: &mut Bounded<Token>) -> Next
    requires stands { StandsIn Object line.now tokens.old from.mode from.place }
    requires within { from.place < length line.now }
    requires begins { BeginsName from.mode }
    ensures leads { LeadsIn Object line.now tokens.old from.mode from.place tokens.new result.mode result.place }
    ensures further { result.mode ≡ Ready → from.place < result.place }
    ensures order { from.place ≤ result.place }
{
    let Some(stop) = read_string(line, from.place, tokens) else {
        return from;
    };
    if stands_at(line, stop, b':') {
        return Next {
            mode: Mode::Ready,
            place: stop + 1,
        };
    }
    Next {
        mode: Mode::AfterName,
        place: stop,
    }
}

/// Continues where the value of a member may begin: past a string and its comma, or past as much of
/// them as is there.
#[inline(always)]
fn pass_value(line: &[u8], place: usize, tokens: &mut Bounded<Token>) -> Next
    requires stands { StandsIn Object line.now tokens.old Ready place }
    ensures leads { LeadsIn Object line.now tokens.old Ready place tokens.new result.mode result.place }
    ensures order { place ≤ result.place }
{
    let ready = Next {
        mode: Mode::Ready,
        place,
    };
    if place >= line.len() {
        return ready;
    }
    let Some(stop) = read_string(line, place, tokens) else {
        return ready;
    };
    if stands_at(line, stop, b',') {
        return Next {
            mode: Mode::NextName,
            place: stop + 1,
        };
    }
    Next {
        mode: Mode::After,
        place: stop,
    }
}

/// Returns whether a name may begin in the mode.
#[inline(always)]
fn begins_name(mode: Mode) -> bool
    ensures { IsTrue result ↔ BeginsName mode }
{
    match mode {
        Mode::FirstName => true,
        Mode::NextName => true,
        _ => false,
    }
}

/// Returns the place behind the bracket of an array at this place.
#[inline(always)]
fn in_array(place: usize) -> Inner
    requires { place < 2 ^ 31 }
    ensures { result ≡ record { next = record { mode = FirstItem; place = place + 1 }; in_array = true } }
{
    Inner {
        next: Next {
            mode: Mode::FirstItem,
            place: place + 1,
        },
        in_array: true,
    }
}

/// Reads names, colons, strings, commas, and the brackets of objects, from a place on where a name
/// may begin. It stops behind the bracket of an array, and before anything else.
pub fn read_members(
    line: &[u8],
    from: Next,
    tokens: &mut Bounded<Token>,
    stack: &mut Stack,
) -> Result<Inner, LineFault>
    requires stands { Stands line.now tokens.old stack.old from.mode from.place }
    requires object { InObject stack.old.elements tokens.old.elements }
    ensures answer { (ts : BoundedList TokenOf) (ks : BoundedList ℕ)
        → Standing line.now ts ks tokens.old stack.old from.mode from.place
        → GoesInto line.now ts ks result tokens.new stack.new }
    ensures array { IfOk result (IsInside tokens.new stack.new) }
    ensures order { IfOk result (λ n. from.place ≤ n.next.place) }
{
    let mut next = from;
    while next.place < line.len() && begins_name(next.mode) {
        let named = pass_name(line, next, tokens);
        match named.mode {
            Mode::Ready => {}
            _ => return Ok(outside_arrays(named)),
        }
        if stands_at(line, named.place, b'{') {
            match open(Kind::Object, Mode::FirstName, named.place, tokens, stack) {
                Ok(_) => {}
                Err(fault) => return Err(fault),
            }
            next = Next {
                mode: Mode::FirstName,
                place: named.place + 1,
            };
        } else if stands_at(line, named.place, b'[') {
            return match open(Kind::Array, Mode::FirstItem, named.place, tokens, stack) {
                Ok(_) => Ok(in_array(named.place)),
                Err(fault) => Err(fault),
            };
        } else {
            next = pass_value(line, named.place, tokens);
        }
    }
    Ok(outside_arrays(next))
}

/// Returns whether a name may begin in an object after the byte of this move. The byte is then `{`,
/// or a comma of an object.
#[inline(always)]
pub fn enters_object(byte: u8, taken: Move) -> bool
    ensures { IsTrue result ↔ StaysInObjectNext byte taken }
{
    match taken {
        Move::To(Mode::NextName) => byte == b',',
        Move::Open(Mode::FirstName) => byte == b'{',
        _ => false,
    }
}

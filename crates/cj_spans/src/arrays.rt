//! Arrays of whole numbers, nested or not, without white space: the largest part of a city model.
//!
//! The scanner could read any line without this module, one byte after another. Here such arrays
//! are read in one go, and everything else is left to the scanner.
ghost use Rattle.std.specs.Prelude.{◌≡◌, ◌^◌, ◌≤◌, ◌<◌, ◌++◌, ◌∷◌, ◌↔◌, List, [], length, suc, ℕ, Some, false};
ghost use Rattle.std.specs.Prelude.{◌+◌, ◌⊎◌, IfOk, IsTrue, slice_get, slice_set};
ghost use Rattle.cj_budget.specs.Bounded.{Becomes, BoundedList, IsWithin};
ghost use Rattle.cj_spans.specs.declared.token.Kind.TheVariants.{Array};
ghost use Rattle.cj_spans.specs.declared.token.Token.{Token as TokenOf};
ghost use Rattle.cj_spans.specs.declared.step.Mode.{Mode as ModeOf};
ghost use Rattle.cj_spans.specs.declared.step.Mode.TheVariants.{FirstItem, After};
ghost use Rattle.cj_spans.specs.Meaning.Json.{byte as byte_of};
ghost use Rattle.cj_spans.specs.Preorder.{token_at};
ghost use Rattle.cj_spans.specs.inner.Machine.{state, between, read as read_of, Kept, Grown, InArray, BeginsValue};
ghost use Rattle.cj_spans.specs.inner.Machine.{MayCloseArray, StaysInArrayNext, FitsToken, IsNumberUpTo};
ghost use Rattle.cj_spans.specs.inner.Pass.{Standing, Stands, StandsIn, LeadsIn, GoesOn, GoesInto, IsInside};
ghost use Rattle.cj_spans.specs.inner.Pass.{ComesArray, KeepsTokens, EndsArray, EndsItems, ReadsNumbers};

use crate::bytes::{is_digit, stands_at};
use crate::fault::LineFault;
use crate::lanes::mark_others;
use crate::numbers::number_stop;
use crate::step::{Inner, Mode, Move, Next, open, outside_arrays};
use crate::token::{Kind, Token, keep_atom};
use cj_budget::{Bounded, Stack};

/// Returns whether the container whose token has this index is an open array.
#[inline(always)]
fn is_open_array(tokens: &Bounded<Token>, index: Option<u32>) -> bool
    ensures { IsTrue result → (ks : List ℕ) → slice_get ks 0 ≡ index → InArray ks tokens.now.elements }
{
    let Some(index) = index else {
        return false;
    };
    match tokens.as_slice().get(index as usize) {
        Some(token) => token.link == 0,
        None => false,
    }
}

/// Keeps the token of an array that opens at `place`.
#[inline(always)]
fn open_array(place: usize, tokens: &mut Bounded<Token>)
    requires short { place < 2 ^ 31 }
    requires room { length tokens.old.elements < tokens.old.limit }
    requires reserved { IsTrue tokens.old.reserved }
    ensures { Becomes tokens.old (tokens.old.elements ++ token_at place 0 0 ∷ []) tokens.new }
{
    let token = Token {
        start: place as u32,
        stop: 0,
        link: 0,
    };
    tokens.push_reserved(token);
}

/// Closes the array whose token has this index, with the bracket at `place`.
#[inline(always)]
fn close_token(index: usize, place: usize, tokens: &mut Bounded<Token>)
    requires small { FitsToken place tokens.old }
    requires within { index < length tokens.old.elements }
    requires list { IsWithin tokens.old }
    ensures closed { (t : TokenOf) → slice_get tokens.old.elements index ≡ Some t
        → tokens.new.elements ≡ slice_set tokens.old.elements index
        (token_at t.start (suc place) (length tokens.old.elements)) }
    ensures tokens { Grown tokens.old tokens.new }
{
    let whole = Token {
        stop: place as u32 + 1,
        link: tokens.len() as u32,
        ..tokens.as_slice()[index]
    };
    tokens.set(index, whole);
}

/// Closes the innermost array with the bracket at `place`. Returns the index of the container that
/// is then the innermost.
///
/// It looks at the stack before it writes the token, so the compiler need not look twice.
#[inline(always)]
fn close_array(place: usize, tokens: &mut Bounded<Token>, stack: &mut Stack) -> Option<u32>
    requires small { FitsToken place tokens.old }
    requires lists { IsWithin tokens.old × IsWithin stack.old }
    requires array { InArray stack.old.elements tokens.old.elements }
    ensures closed { (m : ModeOf) → MayCloseArray m → (p : ℕ)
        → read_of m 93 (state (between m) stack.old.elements tokens.old.elements place p)
        ≡ Some (state (between After) stack.new.elements tokens.new.elements (suc place) p) }
    ensures tokens { Grown tokens.old tokens.new }
    ensures stack { Kept stack.old stack.new }
    ensures outer { slice_get stack.new.elements 0 ≡ result }
{
    let Some(index) = stack.pop() else {
        return stack.top();
    };
    let outer = stack.top();
    close_token(index as usize, place, tokens);
    outer
}

/// Leaves the arrays that end from `from` on, where a value of an array has ended or an array has
/// no item: past their brackets, and past the comma of the next array, if it is there.
#[inline(always)]
fn leave_arrays(line: &[u8], from: Next, tokens: &mut Bounded<Token>, stack: &mut Stack) -> Inner
    requires stands { Stands line.now tokens.old stack.old from.mode from.place }
    requires array { InArray stack.old.elements tokens.old.elements }
    requires ends { EndsItems line.now from }
    ensures answer { (ts : BoundedList TokenOf) (ks : BoundedList ℕ)
        → Standing line.now ts ks tokens.old stack.old from.mode from.place
        → Standing line.now ts ks tokens.new stack.new result.next.mode result.next.place }
    ensures array { IsInside tokens.new stack.new result }
    ensures order { from.place ≤ result.next.place }
    ensures further { IsTrue result.in_array → from.place < result.next.place }
{
    let mut next = from;
    while stands_at(line, next.place, b']') {
        let outer = close_array(next.place, tokens, stack);
        next = Next {
            mode: Mode::After,
            place: next.place + 1,
        };
        if !is_open_array(tokens, outer) {
            return outside_arrays(next);
        }
    }
    if !stands_at(line, next.place, b',') {
        return outside_arrays(next);
    }
    Inner {
        next: Next {
            mode: Mode::Ready,
            place: next.place + 1,
        },
        in_array: true,
    }
}

/// What may come next after numbers of an array, and whether the bracket of the array is there.
#[derive(Clone, Copy)]
struct Numbers {
    next: Next,
    ended: bool,
}

/// Returns that more numbers may come here.
#[inline(always)]
fn before_more(next: Next) -> Numbers
    ensures { result ≡ record { next = next; ended = false } }
{
    Numbers { next, ended: false }
}

/// Keeps the number from `from` to `stop`, if the comma or the bracket of an array is there. It
/// passes the comma.
#[inline(always)]
fn keep_number(line: &[u8], from: Next, stop: usize, tokens: &mut Bounded<Token>) -> Numbers
    requires stands { StandsIn Array line.now tokens.old from.mode from.place }
    requires begins { BeginsValue from.mode }
    requires number { IsNumberUpTo line.now from.place stop }
    ensures reads { ReadsNumbers line.now tokens.old from tokens.new result }
    ensures comma { result.ended ≡ false
        → (result.next.place ≡ from.place) ⊎ (result.next.place ≡ stop + 1) }
{
    if line[stop] == b',' {
        keep_atom(from.place, stop, tokens);
        return before_more(Next {
            mode: Mode::Ready,
            place: stop + 1,
        });
    }
    if line[stop] != b']' {
        return before_more(from);
    }
    keep_atom(from.place, stop, tokens);
    Numbers {
        next: Next {
            mode: Mode::After,
            place: stop,
        },
        ended: true,
    }
}

/// Reads a whole number of an array, of any length and perhaps with a minus.
#[inline(always)]
fn read_number(line: &[u8], from: Next, tokens: &mut Bounded<Token>) -> Numbers
    requires stands { StandsIn Array line.now tokens.old from.mode from.place }
    requires begins { BeginsValue from.mode }
    requires within { from.place < length line.now }
    ensures { ReadsNumbers line.now tokens.old from tokens.new result }
{
    match number_stop(line, from.place) {
        Some(stop) => keep_number(line, from, stop, tokens),
        None => before_more(from),
    }
}

/// Reads the whole numbers of an array that end in the next 32 bytes.
///
/// One look at these bytes finds all ends. So a number need not wait for the end of the one before
/// it.
#[inline(always)]
fn read_block(line: &[u8], from: Next, tokens: &mut Bounded<Token>) -> Numbers
    requires stands { StandsIn Array line.now tokens.old from.mode from.place }
    requires begins { BeginsValue from.mode }
    requires within { from.place < length line.now }
    ensures { ReadsNumbers line.now tokens.old from tokens.new result }
{
    let mut next = from;
    let mut others = mark_others(line, from.place);
    while others != 0 {
        let digits = others.trailing_zeros() as usize;
        if digits == 0 || (line[next.place] == b'0' && digits != 1) {
            return before_more(next);
        }
        let numbers = keep_number(line, next, next.place + digits, tokens);
        if numbers.ended || numbers.next.place == next.place {
            return numbers;
        }
        next = numbers.next;
        others >>= digits + 1;
    }
    before_more(next)
}

/// Reads whole numbers of an array, one at least if there is one.
#[inline(always)]
fn read_some(line: &[u8], from: Next, tokens: &mut Bounded<Token>) -> Numbers
    requires stands { StandsIn Array line.now tokens.old from.mode from.place }
    requires begins { BeginsValue from.mode }
    requires within { from.place < length line.now }
    ensures { ReadsNumbers line.now tokens.old from tokens.new result }
{
    if !is_digit(line[from.place]) {
        return read_number(line, from, tokens);
    }
    let numbers = read_block(line, from, tokens);
    if numbers.ended || numbers.next.place != from.place {
        return numbers;
    }
    read_number(line, numbers.next, tokens)
}

/// Reads whole numbers of an array, each with its comma. It stops before the bracket after the last
/// one, and before any other value.
#[inline(always)]
fn read_numbers(line: &[u8], from: Next, tokens: &mut Bounded<Token>) -> Numbers
    requires stands { StandsIn Array line.now tokens.old from.mode from.place }
    requires begins { BeginsValue from.mode }
    ensures { ReadsNumbers line.now tokens.old from tokens.new result }
{
    let mut next = from;
    while next.place < line.len() {
        let numbers = read_some(line, next, tokens);
        if numbers.ended || numbers.next.place == next.place {
            return numbers;
        }
        next = numbers.next;
    }
    before_more(next)
}

/// Reads the array that begins at `place`, if it has nothing but whole numbers, and leaves those
/// that end with it. It stops before any other value.
///
/// Most arrays have whole numbers alone. So an array comes to the stack only if it has more.
#[inline(always)]
fn read_array(line: &[u8], from: Next, tokens: &mut Bounded<Token>, stack: &mut Stack) -> Inner
    requires stands { Stands line.now tokens.old stack.old from.mode from.place }
    requires array { InArray stack.old.elements tokens.old.elements }
    requires begins { BeginsValue from.mode }
    requires within { from.place < length line.now }
    requires bracket { byte_of line.now from.place ≡ 91 }
    requires shallow { length stack.old.elements < stack.old.limit }
    ensures answer { (ts : BoundedList TokenOf) (ks : BoundedList ℕ)
        → Standing line.now ts ks tokens.old stack.old from.mode from.place
        → Standing line.now ts ks tokens.new stack.new result.next.mode result.next.place }
    ensures array { IsInside tokens.new stack.new result }
    ensures order { from.place < result.next.place }
{
    let index = tokens.len();
    open_array(from.place, tokens);
    let first = Next {
        mode: Mode::FirstItem,
        place: from.place + 1,
    };
    let numbers = read_numbers(line, first, tokens);
    if numbers.ended {
        close_token(index, numbers.next.place, tokens);
        stack.push_and_pop();
        let after = Next {
            mode: Mode::After,
            place: numbers.next.place + 1,
        };
        return leave_arrays(line, after, tokens, stack);
    }
    stack.push_reserved(index as u32);
    Inner {
        next: numbers.next,
        in_array: true,
    }
}

/// Returns whether an array without an item ends here.
#[inline(always)]
fn ends_empty(line: &[u8], from: Next) -> bool
    ensures { IsTrue result → (from.mode ≡ FirstItem) × (byte_of line.now from.place ≡ 93) }
{
    match from.mode {
        Mode::FirstItem => stands_at(line, from.place, b']'),
        _ => false,
    }
}

/// Reads numbers of the innermost array, and leaves it if it ends after them.
#[inline(always)]
fn read_rest(line: &[u8], from: Next, tokens: &mut Bounded<Token>, stack: &mut Stack) -> Inner
    requires stands { Stands line.now tokens.old stack.old from.mode from.place }
    requires array { InArray stack.old.elements tokens.old.elements }
    requires begins { BeginsValue from.mode }
    ensures answer { (ts : BoundedList TokenOf) (ks : BoundedList ℕ)
        → Standing line.now ts ks tokens.old stack.old from.mode from.place
        → Standing line.now ts ks tokens.new stack.new result.next.mode result.next.place }
    ensures array { IsInside tokens.new stack.new result }
    ensures order { from.place ≤ result.next.place }
    ensures further { IsTrue result.in_array → from.place < result.next.place }
{
    if ends_empty(line, from) {
        return leave_arrays(line, from, tokens, stack);
    }
    let numbers = read_numbers(line, from, tokens);
    if numbers.ended {
        return leave_arrays(line, numbers.next, tokens, stack);
    }
    outside_arrays(numbers.next)
}

/// Opens the array at `from` if it begins with an array, and so on. Returns where the first array
/// begins that does not, which is not opened.
#[inline(always)]
fn enter_arrays(
    line: &[u8],
    from: Next,
    tokens: &mut Bounded<Token>,
    stack: &mut Stack,
) -> Result<Next, LineFault>
    requires stands { Stands line.now tokens.old stack.old from.mode from.place }
    requires comes { ComesArray line.now tokens.old stack.old from }
    ensures answer { (ts : BoundedList TokenOf) (ks : BoundedList ℕ)
        → Standing line.now ts ks tokens.old stack.old from.mode from.place
        → GoesOn line.now ts ks result tokens.new stack.new }
    ensures comes { IfOk result (ComesArray line.now tokens.new stack.new) }
    ensures order { IfOk result (λ n. from.place ≤ n.place) }
{
    let mut next = from;
    while stands_at(line, next.place + 1, b'[') {
        match open(Kind::Array, Mode::FirstItem, next.place, tokens, stack) {
            Ok(_) => {}
            Err(fault) => return Err(fault),
        }
        next = Next {
            mode: Mode::FirstItem,
            place: next.place + 1,
        };
    }
    Ok(next)
}

/// Reads an array, or numbers of the innermost one. Arrays that begin with an array come to the
/// stack at once.
#[inline(always)]
fn read_part(
    line: &[u8],
    from: Next,
    tokens: &mut Bounded<Token>,
    stack: &mut Stack,
) -> Result<Inner, LineFault>
    requires stands { Stands line.now tokens.old stack.old from.mode from.place }
    requires array { InArray stack.old.elements tokens.old.elements }
    requires begins { BeginsValue from.mode }
    requires within { from.place < length line.now }
    ensures answer { (ts : BoundedList TokenOf) (ks : BoundedList ℕ)
        → Standing line.now ts ks tokens.old stack.old from.mode from.place
        → GoesInto line.now ts ks result tokens.new stack.new }
    ensures array { IfOk result (IsInside tokens.new stack.new) }
    ensures order { IfOk result (λ n. from.place ≤ n.next.place) }
    ensures further { IfOk result (λ n. IsTrue n.in_array → from.place < n.next.place) }
{
    if line[from.place] != b'[' {
        return Ok(read_rest(line, from, tokens, stack));
    }
    let last = match enter_arrays(line, from, tokens, stack) {
        Ok(last) => last,
        Err(fault) => return Err(fault),
    };
    if stack.len() == stack.limit() {
        return Err(LineFault::TooDeep(last.place as u64));
    }
    Ok(read_array(line, last, tokens, stack))
}

/// Reads arrays and whole numbers from a place on where a value may begin in an array. It stops
/// before any other value, and after an array that is in an object.
pub fn read_arrays(
    line: &[u8],
    from: Next,
    tokens: &mut Bounded<Token>,
    stack: &mut Stack,
) -> Result<Next, LineFault>
    requires stands { Stands line.now tokens.old stack.old from.mode from.place }
    requires array { InArray stack.old.elements tokens.old.elements }
    requires begins { BeginsValue from.mode }
    ensures answer { (ts : BoundedList TokenOf) (ks : BoundedList ℕ)
        → Standing line.now ts ks tokens.old stack.old from.mode from.place
        → GoesOn line.now ts ks result tokens.new stack.new }
    ensures order { IfOk result (λ n. from.place ≤ n.place) }
{
    let mut next = from;
    while next.place < line.len() {
        let inner = match read_part(line, next, tokens, stack) {
            Ok(inner) => inner,
            Err(fault) => return Err(fault),
        };
        if !inner.in_array {
            return Ok(inner.next);
        }
        next = inner.next;
    }
    Ok(next)
}

/// Returns whether a value may begin in an array after the byte of this move. The byte is then `[`,
/// or a comma of an array.
#[inline(always)]
pub fn enters_array(byte: u8, taken: Move) -> bool
    ensures { IsTrue result ↔ StaysInArrayNext byte taken }
{
    match taken {
        Move::To(Mode::Ready) => byte == b',',
        Move::To(Mode::FirstItem) => byte == b'[',
        Move::Open(Mode::Ready) => byte == b',',
        Move::Open(Mode::FirstItem) => byte == b'[',
        _ => false,
    }
}

//! One byte of a line: what may come, and how the byte changes the open containers and the tokens.
ghost use Rattle.std.specs.Prelude.{◌≡◌, ◌⊎◌, true, false, ◌≤◌, ◌<◌, ◌++◌, ◌∷◌, [], length, List, ℕ, slice_get, Some};
ghost use Rattle.std.specs.Prelude.{None, OnErr, IsTrue};
ghost use Rattle.cj_budget.specs.Bounded.{IsWithin};
ghost use Rattle.cj_spans.specs.declared.token.Token.{Token as TokenOf};
ghost use Rattle.cj_spans.specs.declared.step.Mode.{Mode as ModeOf};
ghost use Rattle.cj_spans.specs.declared.step.Mode.TheVariants.{Ready, FirstItem, After};
ghost use Rattle.cj_spans.specs.inner.Machine.{state, between, read as read_of, read_in as read_in_of};
ghost use Rattle.cj_spans.specs.inner.Machine.{begin_value as begin_value_of, begin_name as begin_name_of};
ghost use Rattle.cj_spans.specs.inner.Machine.{after_value as after_value_of, after_in as after_in_of};
ghost use Rattle.cj_spans.specs.inner.Machine.{close_token as close_token_of, close_empty as close_empty_of};
ghost use Rattle.cj_spans.specs.inner.Machine.{colon_step as colon_step_of, open_link as open_link_of};
ghost use Rattle.cj_spans.specs.inner.Machine.{open_kind as open_kind_of, with_opened, Answers, Grown, Kept, ReadsByte};
ghost use Rattle.cj_spans.specs.inner.Machine.{BeginsValue, FitsToken};

use crate::bytes::is_white_space;
use crate::fault::LineFault;
use crate::lex::{Lex, lex_start};
use crate::token::{Kind, Token};
use cj_budget::{Bounded, Stack};

/// What may come next.
#[derive(Clone, Copy)]
pub enum Mode {
    /// A value.
    Ready,
    /// A value or `]`.
    FirstItem,
    /// What follows a value.
    After,
    /// A name or `}`.
    FirstName,
    /// A name.
    NextName,
    /// A colon.
    AfterName,
}

/// What a byte does.
#[derive(Clone, Copy)]
pub enum Move {
    /// The byte is white space.
    Stay,
    /// The byte is a bracket or a sign.
    To(Mode),
    /// The byte opens a container.
    Open(Mode),
    /// The byte begins a scalar or a name. The mode comes after that.
    Atom(Mode, Lex),
}

/// Returns the token at an index.
#[inline(always)]
fn token_of(tokens: &[Token], index: u32) -> Option<Token>
    ensures { result ≡ slice_get tokens.now index }
{
    tokens.get(index as usize).copied()
}

/// Returns the link of an open container of this kind. The link shows the kind.
#[inline(always)]
fn open_link(kind: Kind) -> u32
    ensures { result ≡ open_link_of kind }
{
    match kind {
        Kind::Object => 1,
        _ => 0,
    }
}

/// Returns the kind of the open container with this token.
#[inline(always)]
fn open_kind(token: Token) -> Kind
    ensures { result ≡ open_kind_of token }
{
    if token.link == 0 {
        Kind::Array
    } else {
        Kind::Object
    }
}

/// Opens a container. Its token is kept at once, before those of its parts. Stop and link are set
/// when it closes.
#[inline(always)]
pub fn open(
    kind: Kind,
    next: Mode,
    place: usize,
    tokens: &mut Bounded<Token>,
    stack: &mut Stack,
) -> Result<Move, LineFault>
    requires small { FitsToken place tokens.old }
    requires lists { IsWithin tokens.old × IsWithin stack.old }
    requires room { length tokens.old.elements < tokens.old.limit }
    requires reserved { IsTrue tokens.old.reserved × IsTrue stack.old.reserved }
    ensures { ReadsByte (λ s. Some (with_opened kind next s)) place result tokens.old tokens.new stack.old stack.new }
{
    if stack.len() == stack.limit() {
        return Err(LineFault::TooDeep(place as u64));
    }
    stack.push_reserved(tokens.len() as u32);
    let token = Token {
        start: place as u32,
        stop: 0,
        link: open_link(kind),
    };
    tokens.push_reserved(token);
    Ok(Move::Open(next))
}

/// Reads the first byte of a value.
#[inline(always)]
fn begin_value(
    byte: u8,
    place: usize,
    tokens: &mut Bounded<Token>,
    stack: &mut Stack,
) -> Result<Move, LineFault>
    requires small { FitsToken place tokens.old }
    requires lists { IsWithin tokens.old × IsWithin stack.old }
    requires room { length tokens.old.elements < tokens.old.limit }
    requires reserved { IsTrue tokens.old.reserved × IsTrue stack.old.reserved }
    ensures { ReadsByte (begin_value_of byte) place result tokens.old tokens.new stack.old stack.new }
{
    if byte == b'"' {
        return Ok(Move::Atom(Mode::After, Lex::InString));
    }
    if byte == b'[' {
        return open(Kind::Array, Mode::FirstItem, place, tokens, stack);
    }
    if byte == b'{' {
        return open(Kind::Object, Mode::FirstName, place, tokens, stack);
    }
    match lex_start(byte) {
        Some(first) => Ok(Move::Atom(Mode::After, first)),
        None => Err(LineFault::Syntax(place as u64)),
    }
}

/// Closes the innermost container. Its token is at this index.
#[inline(always)]
fn close(
    index: u32,
    place: usize,
    tokens: &mut Bounded<Token>,
    stack: &mut Stack,
) -> Result<Move, LineFault>
    requires small { FitsToken place tokens.old }
    requires lists { IsWithin tokens.old × IsWithin stack.old }
    ensures { ReadsByte
        (λ s. close_token_of index (slice_get s.tokens index) s) place result tokens.old tokens.new
        stack.old stack.new }
{
    match token_of(tokens.as_slice(), index) {
        None => Err(LineFault::Syntax(place as u64)),
        Some(token) => {
            let whole = Token {
                stop: place as u32 + 1,
                link: tokens.len() as u32,
                ..token
            };
            tokens.set(index as usize, whole);
            stack.pop();
            Ok(Move::To(Mode::After))
        }
    }
}

/// Closes the innermost container, which is empty.
fn close_empty(
    place: usize,
    tokens: &mut Bounded<Token>,
    stack: &mut Stack,
) -> Result<Move, LineFault>
    requires small { FitsToken place tokens.old }
    requires lists { IsWithin tokens.old × IsWithin stack.old }
    ensures { ReadsByte close_empty_of place result tokens.old tokens.new stack.old stack.new }
{
    match stack.top() {
        None => Err(LineFault::Syntax(place as u64)),
        Some(index) => close(index, place, tokens, stack),
    }
}

/// Continues after a value in a container of this kind: with a comma, or the bracket that closes
/// it.
///
/// It is inlined, so that many arguments cost nothing.
#[inline(always)]
fn after_in(
    kind: Kind,
    index: u32,
    byte: u8,
    place: usize,
    tokens: &mut Bounded<Token>,
    stack: &mut Stack,
) -> Result<Move, LineFault>
    requires small { FitsToken place tokens.old }
    requires lists { IsWithin tokens.old × IsWithin stack.old }
    ensures { (t : TokenOf) → slice_get tokens.old.elements index ≡ Some t
        → ReadsByte (after_in_of kind byte index t) place result tokens.old tokens.new stack.old stack.new }
{
    match kind {
        Kind::Array => {
            if byte == b',' {
                Ok(Move::To(Mode::Ready))
            } else if byte == b']' {
                close(index, place, tokens, stack)
            } else {
                Err(LineFault::Syntax(place as u64))
            }
        }
        Kind::Object => {
            if byte == b',' {
                Ok(Move::To(Mode::NextName))
            } else if byte == b'}' {
                close(index, place, tokens, stack)
            } else {
                Err(LineFault::Syntax(place as u64))
            }
        }
        _ => Err(LineFault::Syntax(place as u64)),
    }
}

/// Continues after a value.
#[inline(always)]
fn after_value(
    byte: u8,
    place: usize,
    tokens: &mut Bounded<Token>,
    stack: &mut Stack,
) -> Result<Move, LineFault>
    requires small { FitsToken place tokens.old }
    requires lists { IsWithin tokens.old × IsWithin stack.old }
    ensures { ReadsByte (after_value_of byte) place result tokens.old tokens.new stack.old stack.new }
{
    match stack.top() {
        None => Err(LineFault::Syntax(place as u64)),
        Some(index) => match token_of(tokens.as_slice(), index) {
            None => Err(LineFault::Syntax(place as u64)),
            Some(token) => after_in(open_kind(token), index, byte, place, tokens, stack),
        },
    }
}

/// Reads the quote that begins a name.
#[inline(always)]
fn begin_name(byte: u8, place: usize) -> Result<Move, LineFault>
    ensures { (m : ModeOf) (ks : List ℕ) (ts : List TokenOf) (p d : ℕ) → Answers
        (begin_name_of byte (state (between m) ks ts place p)) m place p d result ks ts }
{
    if byte == b'"' {
        Ok(Move::Atom(Mode::AfterName, Lex::InString))
    } else {
        Err(LineFault::Syntax(place as u64))
    }
}

/// Reads the colon after a name.
#[inline(always)]
fn read_colon(byte: u8, place: usize) -> Result<Move, LineFault>
    ensures { (m : ModeOf) (ks : List ℕ) (ts : List TokenOf) (p d : ℕ) → Answers
        (colon_step_of byte (state (between m) ks ts place p)) m place p d result ks ts }
{
    if byte == b':' {
        Ok(Move::To(Mode::Ready))
    } else {
        Err(LineFault::Syntax(place as u64))
    }
}

/// Returns whether a value may come, or what follows one.
///
/// The test uses the order of the modes. For a `match` on all six the compiler would make a jump
/// table.
#[inline(always)]
fn is_at_value(mode: Mode) -> bool
    ensures yes { result ≡ true → (mode ≡ Ready) ⊎ ((mode ≡ FirstItem) ⊎ (mode ≡ After)) }
    ensures no { result ≡ false → (mode ≡ Ready → ⊥) × (mode ≡ FirstItem → ⊥) × (mode ≡ After → ⊥) }
{
    mode as u8 <= Mode::After as u8
}

/// Reads a byte other than white space where a name or a colon may come.
#[tactic(auto, using(crate::proofs::Atoms::left_colon))]
#[inline(always)]
fn read_name_byte(
    mode: Mode,
    byte: u8,
    place: usize,
    tokens: &mut Bounded<Token>,
    stack: &mut Stack,
) -> Result<Move, LineFault>
    requires mode { (mode ≡ Ready → ⊥) × (mode ≡ FirstItem → ⊥) × (mode ≡ After → ⊥) }
    requires small { FitsToken place tokens.old }
    requires lists { IsWithin tokens.old × IsWithin stack.old }
    ensures answer { (p : ℕ) → Answers
        (read_in_of mode byte (state (between mode) stack.old.elements tokens.old.elements place p))
        mode place p stack.old.limit result stack.new.elements tokens.new.elements }
    ensures tokens { Grown tokens.old tokens.new }
    ensures stack { Kept stack.old stack.new }
    ensures err { OnErr result ((tokens.new ≡ tokens.old) × (stack.new ≡ stack.old)) }
{
    match mode {
        Mode::FirstName => {
            if byte == b'}' {
                close_empty(place, tokens, stack)
            } else {
                begin_name(byte, place)
            }
        }
        Mode::NextName => begin_name(byte, place),
        _ => read_colon(byte, place),
    }
}

/// Reads a byte between scalars and names.
#[tactic(auto, using(crate::proofs::Atoms::left_after))]
#[inline(always)]
pub fn read_byte(
    mode: Mode,
    byte: u8,
    place: usize,
    tokens: &mut Bounded<Token>,
    stack: &mut Stack,
) -> Result<Move, LineFault>
    requires small { FitsToken place tokens.old }
    requires lists { IsWithin tokens.old × IsWithin stack.old }
    requires room { BeginsValue mode → length tokens.old.elements < tokens.old.limit }
    requires reserved { IsTrue tokens.old.reserved × IsTrue stack.old.reserved }
    ensures answer { (p : ℕ) → Answers
        (read_of mode byte (state (between mode) stack.old.elements tokens.old.elements place p))
        mode place p stack.old.limit result stack.new.elements tokens.new.elements }
    ensures tokens { Grown tokens.old tokens.new }
    ensures stack { Kept stack.old stack.new }
    ensures err { OnErr result ((tokens.new ≡ tokens.old) × (stack.new ≡ stack.old)) }
{
    if is_white_space(byte) {
        return Ok(Move::Stay);
    }
    if !is_at_value(mode) {
        return read_name_byte(mode, byte, place, tokens, stack);
    }
    match mode {
        Mode::Ready => begin_value(byte, place, tokens, stack),
        Mode::FirstItem => {
            if byte == b']' {
                close_empty(place, tokens, stack)
            } else {
                begin_value(byte, place, tokens, stack)
            }
        }
        _ => after_value(byte, place, tokens, stack),
    }
}

/// What may come next, and where.
#[derive(Clone, Copy)]
pub struct Next {
    pub mode: Mode,
    pub place: usize,
}

/// What may come next, and where, and whether that is a value of an array.
#[derive(Clone, Copy)]
pub struct Inner {
    pub next: Next,
    pub in_array: bool,
}

/// Returns this place as one where no value of an array comes.
#[inline(always)]
pub fn outside_arrays(next: Next) -> Inner
    ensures { result ≡ record { next = next; in_array = false } }
{
    Inner {
        next,
        in_array: false,
    }
}

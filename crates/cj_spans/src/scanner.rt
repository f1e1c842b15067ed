//! The scanner: the pass over a line.
//!
//! The *machine* (`specs/inner/Machine.antt`) reads one byte per step. Proofs use it, and only
//! private clauses cite it. Public clauses use the grammar (`Json`), prefixes and trees. So a
//! change of the grammar changes `Spelling`, `Json`, `Front` and `Machine`. A faster body changes
//! none of them.
//!
//! Clauses describe the byte of a fault in two ways. A proof can follow prefixes, and a reader
//! expects the JSON texts that a line begins. `scan` has clauses of both kinds, and both must hold
//! at the edges: the empty line, a line that is cut short, and a number that may end at the end of
//! the line but not before a letter. UTF-8 is checked first, for the whole line, so the grammar is
//! about bytes.
//!
//! `make_room` requests all memory before this, as much as the limits allow. The pass uses the
//! reserved forms of push. So no function in it has a result for a lack of memory, and a new one
//! must have none.
//!
//! Each token but the last has two bytes of its own, or a container that is open. So the lists are
//! long enough: `2 * tokens ≤ bytes + open + 1`. A token for anything else would break this.
ghost use Rattle.std.specs.Prelude.{◌≡◌, ◌+◌, ◌*◌, ◌/◌, ◌^◌, ◌≤◌, ◌<◌, ◌↔◌, ◌⊎◌, [], length, List, ℕ, suc, OnOk, OnErr};
ghost use Rattle.std.specs.Prelude.{IfOk, IsOk, IsErrOf, IsTrue, IsUtf8};
ghost use Rattle.std.specs.Str.{IsValidUpTo};
ghost use Rattle.cj_budget.specs.Bounded.{BoundedList, IsWithin};
ghost use Rattle.cj_budget.specs.Meaning.Counts.{HasRisen};
ghost use Rattle.cj_spans.specs.declared.step.Mode.TheVariants.{After};
ghost use Rattle.cj_spans.specs.Meaning.Tree.{Tree, nest};
ghost use Rattle.cj_spans.specs.Meaning.Json.{Json, byte as byte_of};
ghost use Rattle.cj_spans.specs.Meaning.Prefix.{SyntaxAt, DeepAt, NowhereDeep};
ghost use Rattle.cj_spans.specs.Meaning.Begins.{IsFirstFault, IsFirstTooDeep};
ghost use Rattle.cj_spans.specs.Marks.{AreUnmarked};
ghost use Rattle.cj_spans.specs.Scan.{IsScanOf, AreSized, HasPeakAt, KeepsLaw, IsEmptied};
ghost use Rattle.cj_spans.specs.Meaning.Judgement.{Judgement};
ghost use Rattle.cj_spans.specs.Answers.{IsAnswerOf, IsReservedAnswerOf};
ghost use Rattle.cj_spans.specs.declared.token.Token.{Token as TokenOf};
ghost use Rattle.cj_spans.specs.inner.Machine.{State, state, between, in_atom, ComesTo, phase_after, EndAnswers, Grown};
ghost use Rattle.cj_spans.specs.inner.Machine.{BeginsAtom, BeginsValue, BeginsValueNext, BeginsNameNext, InArray};
ghost use Rattle.cj_spans.specs.inner.Machine.{InObject, StaysInArrayNext, StaysInObjectNext, RunAnswers};
ghost use Rattle.cj_spans.specs.inner.Pass.{Standing, Stands, GoesOn, GoesInto, IsInside};

use crate::arrays::{enters_array, read_arrays};
use crate::atom::read_atom;
use crate::fault::{LineFault, ScanFault};
use crate::lex::{Lex, lex_kind};
use crate::members::{enters_object, read_members};
use crate::step::{Inner, Mode, Move, Next, read_byte};
use crate::token::{Token, keep_atom};
use crate::utf8::check_utf8;
use cj_budget::{Bounded, NoMemory, Stack};

/// Reads the rest of the scalar or the name that the byte at `place` began, and keeps its token.
#[tactic(auto, using(crate::proofs::Atoms::ends_err, crate::proofs::Atoms::ends_ok))]
#[inline(always)]
fn end_atom(
    line: &[u8],
    place: usize,
    next: Mode,
    first: Lex,
    tokens: &mut Bounded<Token>,
) -> Result<Next, LineFault>
    requires small { (length line.now < 2 ^ 31) × (length tokens.old.elements < 2 ^ 31) }
    requires within { place < length line.now }
    requires lists { IsWithin tokens.old }
    requires room { length tokens.old.elements < tokens.old.limit }
    requires reserved { IsTrue tokens.old.reserved }
    ensures answer { (ks : List ℕ) (p : ℕ) → EndAnswers line.now
        (state (in_atom next place first) ks tokens.old.elements (suc place) p)
        result tokens.new.elements }
    ensures tokens { Grown tokens.old tokens.new }
    ensures err { OnErr result (tokens.new ≡ tokens.old) }
{
    let reach = read_atom(line, place, first);
    let Some(_) = lex_kind(reach.read) else {
        return Err(LineFault::Syntax(reach.stop as u64));
    };
    keep_atom(place, reach.stop, tokens);
    Ok(Next {
        mode: next,
        place: reach.stop,
    })
}

/// Continues past the colon directly after a name.
#[tactic(auto, using(crate::proofs::Signs::colon_read))]
#[inline(always)]
fn pass_colon(line: &[u8], from: Next) -> Next
    ensures answer { (s : State) (ks : List ℕ) (ts : List TokenOf) (p : ℕ)
        → ComesTo line.now s (state (between from.mode) ks ts from.place p)
        → ComesTo line.now s (state (between result.mode) ks ts result.place p) }
    ensures order { from.place ≤ result.place }
    ensures end { from.place ≤ length line.now → result.place ≤ length line.now }
{
    match from.mode {
        Mode::AfterName => {
            if from.place < line.len() && line[from.place] == b':' {
                Next {
                    mode: Mode::Ready,
                    place: from.place + 1,
                }
            } else {
                from
            }
        }
        _ => from,
    }
}

/// Continues after a move: past a scalar, past a name and its colon, or to the next byte.
#[tactic(auto, using(crate::proofs::Atoms::settles_at))]
#[inline(always)]
fn follow(
    line: &[u8],
    place: usize,
    mode: Mode,
    taken: Move,
    tokens: &mut Bounded<Token>,
) -> Result<Next, LineFault>
    requires small { (length line.now < 2 ^ 31) × (length tokens.old.elements < 2 ^ 31) }
    requires within { place < length line.now }
    requires lists { IsWithin tokens.old }
    requires room { BeginsAtom taken → length tokens.old.elements < tokens.old.limit }
    requires reserved { IsTrue tokens.old.reserved }
    ensures answer { (ks : List ℕ) (p : ℕ) → EndAnswers line.now
        (state (phase_after mode place taken) ks tokens.old.elements (suc place) p)
        result tokens.new.elements }
    ensures signs { BeginsValueNext taken → (tokens.new ≡ tokens.old) × IfOk result (λ n. BeginsValue n.mode) }
    ensures names { BeginsNameNext taken → tokens.new ≡ tokens.old }
    ensures tokens { Grown tokens.old tokens.new }
    ensures err { OnErr result (tokens.new ≡ tokens.old) }
{
    match taken {
        Move::Stay => Ok(Next {
            mode,
            place: place + 1,
        }),
        Move::To(mode) => Ok(Next {
            mode,
            place: place + 1,
        }),
        Move::Open(mode) => Ok(Next {
            mode,
            place: place + 1,
        }),
        Move::Atom(next, first) => match end_atom(line, place, next, first, tokens) {
            Ok(next) => Ok(pass_colon(line, next)),
            Err(fault) => Err(fault),
        },
    }
}

/// Continues after the byte at `place`, whose move came to `next`. If the innermost container is
/// then an object, it passes names, strings and brackets.
///
/// It is inlined, so that many arguments cost nothing.
#[inline(always)]
fn pass_members(
    line: &[u8],
    place: usize,
    taken: Move,
    next: Next,
    tokens: &mut Bounded<Token>,
    stack: &mut Stack,
) -> Result<Inner, LineFault>
    requires within { place < length line.now }
    requires stands { Stands line.now tokens.old stack.old next.mode next.place }
    requires array { StaysInArrayNext (byte_of line.now place) taken
        → InArray stack.old.elements tokens.old.elements × BeginsValue next.mode }
    requires object { StaysInObjectNext (byte_of line.now place) taken
        → InObject stack.old.elements tokens.old.elements }
    ensures answer { (ts : BoundedList TokenOf) (ks : BoundedList ℕ)
        → Standing line.now ts ks tokens.old stack.old next.mode next.place
        → GoesInto line.now ts ks result tokens.new stack.new }
    ensures array { IfOk result (IsInside tokens.new stack.new) }
    ensures order { IfOk result (λ n. next.place ≤ n.next.place) }
{
    if enters_object(line[place], taken) {
        return read_members(line, next, tokens, stack);
    }
    Ok(Inner {
        next,
        in_array: enters_array(line[place], taken),
    })
}

/// Continues after the byte at `place`, whose move came to `next`. If the innermost container is
/// then an array, it passes the arrays and numbers that follow. If it is an object, it passes names
/// and strings first.
///
/// It is inlined, so that many arguments cost nothing.
#[inline(always)]
fn pass_parts(
    line: &[u8],
    place: usize,
    taken: Move,
    next: Next,
    tokens: &mut Bounded<Token>,
    stack: &mut Stack,
) -> Result<Next, LineFault>
    requires within { place < length line.now }
    requires stands { Stands line.now tokens.old stack.old next.mode next.place }
    requires array { StaysInArrayNext (byte_of line.now place) taken
        → InArray stack.old.elements tokens.old.elements × BeginsValue next.mode }
    requires object { StaysInObjectNext (byte_of line.now place) taken
        → InObject stack.old.elements tokens.old.elements }
    ensures answer { (ts : BoundedList TokenOf) (ks : BoundedList ℕ)
        → Standing line.now ts ks tokens.old stack.old next.mode next.place
        → GoesOn line.now ts ks result tokens.new stack.new }
    ensures order { IfOk result (λ n. next.place ≤ n.place) }
{
    match pass_members(line, place, taken, next, tokens, stack) {
        Ok(inner) => {
            if inner.in_array {
                read_arrays(line, inner.next, tokens, stack)
            } else {
                Ok(inner.next)
            }
        }
        Err(fault) => Err(fault),
    }
}

/// Returns whether the line is a JSON text if it ends here.
#[inline(always)]
fn is_end(mode: Mode, stack: &Stack) -> bool
    ensures { IsTrue result ↔ ((mode ≡ After) × (stack.now.elements ≡ [])) }
{
    match mode {
        Mode::After => stack.is_empty(),
        _ => false,
    }
}

/// Reads the line into empty lists with reserved memory.
fn run(line: &[u8], tokens: &mut Bounded<Token>, stack: &mut Stack) -> Result<(), LineFault>
    requires short { length line.now ≤ 1073741824 }
    requires room { (length line.now + stack.old.limit + 1) / 2 ≤ tokens.old.limit }
    requires empty { (tokens.old.elements ≡ []) × (stack.old.elements ≡ []) }
    requires lists { IsWithin tokens.old × IsWithin stack.old }
    requires reserved { IsTrue tokens.old.reserved × IsTrue stack.old.reserved }
    ensures answer { RunAnswers line.now stack.old result tokens.new stack.new }
    ensures law { KeepsLaw line.now tokens.old tokens.new stack.old stack.new }
{
    let mut mode = Mode::Ready;
    let mut place = 0;
    while place < line.len() {
        let taken = match read_byte(mode, line[place], place, tokens, stack) {
            Ok(taken) => taken,
            Err(fault) => return Err(fault),
        };
        let next = match follow(line, place, mode, taken, tokens) {
            Ok(next) => next,
            Err(fault) => return Err(fault),
        };
        match pass_parts(line, place, taken, next, tokens, stack) {
            Ok(next) => {
                mode = next.mode;
                place = next.place;
            }
            Err(fault) => return Err(fault),
        }
    }
    if is_end(mode, stack) {
        Ok(())
    } else {
        Err(LineFault::Syntax(place as u64))
    }
}

/// Scans a line as [`scan`] does, into lists with reserved memory.
///
/// It allocates nothing, so its result depends only on the line and the depth limit. It empties
/// both lists first. Their memory stays reserved.
pub fn scan_reserved(
    line: &[u8],
    tokens: &mut Bounded<Token>,
    stack: &mut Stack,
) -> Result<(), LineFault>
    requires short { length line.now ≤ 1073741824 }
    requires room { (length line.now + stack.old.limit + 1) / 2 ≤ tokens.old.limit }
    requires reserved { IsTrue tokens.old.reserved × IsTrue stack.old.reserved }

    // At `Ok` the lists show the one tree that the line spells.
    ensures tree { OnOk result ((t : Tree)
        × IsScanOf line.now t tokens.old tokens.new stack.old stack.new) }
    ensures sized { OnOk result (AreSized line.now tokens.new.elements) }
    ensures unmarked { OnOk result (AreUnmarked tokens.new.elements) }
    ensures utf8 { ((i : ℕ) → IsErrOf result (LineFault.NotUtf8 i) → ⊥) → IsUtf8 line.now }

    // Each fault comes with its place.
    ensures not_utf8 { (i : ℕ) → (IsErrOf result (LineFault.NotUtf8 i) ↔ IsValidUpTo line.now i) }
    ensures too_deep { (i : ℕ) → IsErrOf result (LineFault.TooDeep i)
        → DeepAt line.now stack.old.limit i }
    ensures syntax { (i : ℕ) → IsErrOf result (LineFault.Syntax i)
        → SyntaxAt line.now i × NowhereDeep line.now stack.old.limit }

    // The same places, by the JSON texts that the line begins.
    ensures first_too_deep { (i : ℕ) → IsErrOf result (LineFault.TooDeep i)
        → IsFirstTooDeep line.now stack.old.limit i }
    ensures first_fault { (i : ℕ) → IsErrOf result (LineFault.Syntax i) → IsFirstFault line.now i }

    // Each fault is found: no line gets another result.
    ensures finds_tree { IsUtf8 line.now → (t : Tree) → Json line.now t → nest t ≤ stack.old.limit
        → IsOk result }
    ensures finds_deep { IsUtf8 line.now → (i : ℕ) → DeepAt line.now stack.old.limit i
        → IsErrOf result (LineFault.TooDeep i) }
    ensures finds_syntax { IsUtf8 line.now → NowhereDeep line.now stack.old.limit
        → (i : ℕ) → SyntaxAt line.now i → IsErrOf result (LineFault.Syntax i) }

    // In one: each line has a judgement, and the result is that judgement's.
    ensures judgement { Judgement line.now stack.old.limit }
    ensures judged { (j : Judgement line.now stack.old.limit) → IsUtf8 line.now → IsReservedAnswerOf j result }

    // A line that is not UTF-8 is not read. At another fault the peak of open containers is that of
    // the bytes before it.
    ensures unread { (i : ℕ) → IsErrOf result (LineFault.NotUtf8 i)
        → (stack.new.elements ≡ []) × (stack.new.peak ≡ stack.old.peak) }
    ensures peak { (i : ℕ) → IsErrOf result (LineFault.Syntax i) ⊎ IsErrOf result (LineFault.TooDeep i)
        → HasPeakAt line.now i stack.old stack.new }

    // With any result, the lists keep the law of the bound, and their reserved memory.
    ensures law { KeepsLaw line.now tokens.old tokens.new stack.old stack.new }
{
    tokens.clear();
    stack.clear();
    match check_utf8(line) {
        Ok(_) => run(line, tokens, stack),
        Err(place) => Err(LineFault::NotUtf8(place as u64)),
    }
}

/// Empties both lists, and reserves memory in each for as many elements as its limit allows.
fn make_room(tokens: &mut Bounded<Token>, stack: &mut Stack) -> Result<(), NoMemory>
    ensures emptied { IsEmptied tokens.old tokens.new × IsEmptied stack.old stack.new }
    ensures ok { OnOk result (IsTrue tokens.new.reserved × IsTrue stack.new.reserved) }
    ensures cause { OnErr result (HasRisen tokens.old.failed_growths tokens.new.failed_growths
        ⊎ HasRisen stack.old.failed_growths stack.new.failed_growths) }
    ensures granted { IsTrue tokens.old.reserved → IsTrue stack.old.reserved → IsOk result }
{
    tokens.clear();
    stack.clear();
    tokens.reserve_all()?;
    stack.reserve_all()
}

/// Scans a line into tokens, under the stack's limit of open containers.
///
/// It empties both lists first, and reserves memory for their limits if it is not reserved. At `Ok`
/// there is one token for each value and each member name (RFC 8259).
///
/// # Errors
///
/// The first of these:
///
/// - `Memory` if the memory was refused. The line was not read, both lists are empty, and one of
///   them has counted a failed growth.
/// - `NotUtf8` if the line is not UTF-8, whatever else is wrong with it.
/// - `TooDeep` if the line opens more containers than the limit allows. The place is the first
///   container too many. The bytes after it are not read.
/// - `Syntax` if the line is no JSON text. The place is the first byte that no JSON text can have,
///   or the end of the line.
pub fn scan(line: &[u8], tokens: &mut Bounded<Token>, stack: &mut Stack) -> Result<(), ScanFault>
    requires short { length line.now ≤ 1073741824 }
    requires room { (length line.now + stack.old.limit + 1) / 2 ≤ tokens.old.limit }

    // At `Ok` the lists show the one tree that the line spells.
    ensures tree { OnOk result ((t : Tree)
        × IsScanOf line.now t tokens.old tokens.new stack.old stack.new) }
    ensures sized { OnOk result (AreSized line.now tokens.new.elements) }
    ensures unmarked { OnOk result (AreUnmarked tokens.new.elements) }
    ensures utf8 { (IsErrOf result ScanFault.Memory → ⊥)
        → ((i : ℕ) → IsErrOf result (ScanFault.NotUtf8 i) → ⊥) → IsUtf8 line.now }

    // Each fault comes with its place.
    ensures not_utf8 { (i : ℕ) → IsErrOf result (ScanFault.NotUtf8 i) → IsValidUpTo line.now i }
    ensures too_deep { (i : ℕ) → IsErrOf result (ScanFault.TooDeep i)
        → DeepAt line.now stack.old.limit i }
    ensures syntax { (i : ℕ) → IsErrOf result (ScanFault.Syntax i)
        → SyntaxAt line.now i × NowhereDeep line.now stack.old.limit }

    // Memory is requested first. If it is refused, both lists are empty, and otherwise both have
    // their memory reserved. It is not refused if it was reserved before. The cause is a list's
    // growth that failed.
    ensures memory { IsTrue tokens.old.reserved → IsTrue stack.old.reserved
        → IsErrOf result ScanFault.Memory → ⊥ }
    ensures cause { IsErrOf result ScanFault.Memory
        → HasRisen tokens.old.failed_growths tokens.new.failed_growths
        ⊎ HasRisen stack.old.failed_growths stack.new.failed_growths }
    ensures emptied { IsErrOf result ScanFault.Memory
        → (tokens.new.elements ≡ []) × (stack.new.elements ≡ []) }
    ensures reserved { (IsErrOf result ScanFault.Memory → ⊥)
        → IsTrue tokens.new.reserved × IsTrue stack.new.reserved }

    // The same places, by the JSON texts that the line begins.
    ensures first_too_deep { (i : ℕ) → IsErrOf result (ScanFault.TooDeep i)
        → IsFirstTooDeep line.now stack.old.limit i }
    ensures first_fault { (i : ℕ) → IsErrOf result (ScanFault.Syntax i) → IsFirstFault line.now i }

    // Each fault is found: no line gets another result, except for a lack of memory.
    ensures finds_not_utf8 { (i : ℕ) → IsValidUpTo line.now i
        → IsErrOf result (ScanFault.NotUtf8 i) ⊎ IsErrOf result ScanFault.Memory }
    ensures finds_tree { IsUtf8 line.now → (t : Tree) → Json line.now t → nest t ≤ stack.old.limit
        → IsOk result ⊎ IsErrOf result ScanFault.Memory }
    ensures finds_deep { IsUtf8 line.now → (i : ℕ) → DeepAt line.now stack.old.limit i
        → IsErrOf result (ScanFault.TooDeep i) ⊎ IsErrOf result ScanFault.Memory }
    ensures finds_syntax { IsUtf8 line.now → NowhereDeep line.now stack.old.limit
        → (i : ℕ) → SyntaxAt line.now i
        → IsErrOf result (ScanFault.Syntax i) ⊎ IsErrOf result ScanFault.Memory }

    // In one: each line has a judgement, and by the law `one_judgement` only one. The result is
    // that judgement's.
    ensures judgement { Judgement line.now stack.old.limit }
    ensures judged { (j : Judgement line.now stack.old.limit) → IsUtf8 line.now → IsAnswerOf j result }

    // Without memory, and if it is not UTF-8, the line is not read. At another fault the peak of
    // open containers is that of the bytes before it.
    ensures unread { (i : ℕ) → IsErrOf result ScanFault.Memory ⊎ IsErrOf result (ScanFault.NotUtf8 i)
        → (stack.new.elements ≡ []) × (stack.new.peak ≡ stack.old.peak) }
    ensures peak { (i : ℕ) → IsErrOf result (ScanFault.Syntax i) ⊎ IsErrOf result (ScanFault.TooDeep i)
        → HasPeakAt line.now i stack.old stack.new }

    // With any result, the lists keep the law of the bound.
    ensures law { KeepsLaw line.now tokens.old tokens.new stack.old stack.new }
{
    make_room(tokens, stack)?;
    scan_reserved(line, tokens, stack)?;
    Ok(())
}

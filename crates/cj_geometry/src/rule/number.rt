//! Numbers that rules read.
ghost use Rattle.std.specs.Prelude.{◌≡◌, ℕ, ℤ, ◌<◌, ◌^◌, nat_lt, not, pos, Some, IfSome, IsTrue, length, take, []};
ghost use Rattle.std.specs.List.{flat_map};
ghost use Rattle.cj_spans.specs.declared.reason.Reason.{Reason as ReasonOf};
ghost use Rattle.cj_spans.specs.Meaning.Parts.{items_of};
ghost use Rattle.cj_decimal.specs.Word.{IsWordOf, IsBoundWord};
ghost use Rattle.cj_geometry.specs.Lone.{AreLone};
ghost use Rattle.cj_spans.specs.Meaning.Finding.{least};
ghost use Rattle.cj_spans.specs.View.{tree};
ghost use Rattle.cj_geometry.specs.Meaning.Numbers.{number, index, whole_number, is_outside as is_outside_of, whole_of};
ghost use Rattle.cj_geometry.specs.Meaning.Numbers.{fault_reason};
ghost use Rattle.cj_geometry.specs.Meaning.Rule.{of_length};

use crate::rule::{add, is_found_before};
use cj_decimal::{Decimal, DecimalFault, digits_word};
use cj_spans::{Kind, Least, Node, Reason};

/// Returns the reason for a fault of a number. A value that is no number has the wrong kind.
fn reason_of(fault: DecimalFault) -> Reason
    ensures { result ≡ fault_reason fault }
{
    match fault {
        DecimalFault::NotANumber => Reason::WrongKind,
        DecimalFault::NumberRange => Reason::NumberRange,
    }
}

/// Checks that the value is a number in range.
pub fn check_number(node: Node, found: &mut Least)
    ensures { found.new ≡ least found.old (number (tree node.entry)) }
{
    match node.kind() {
        Kind::Number => match Decimal::read(node.bytes()) {
            Ok(_) => {}
            Err(fault) => add(node, reason_of(fault), found),
        },
        _ => add(node, Reason::WrongKind, found),
    }
}

/// Returns whether a whole number is below 0, or not below a count. Without a count the result is
/// false.
fn is_outside(count: Option<u64>, whole: i64) -> bool
    ensures { result ≡ is_outside_of count whole }
{
    match count {
        Some(count) => whole < 0 || whole as u64 >= count,
        None => false,
    }
}

/// Returns the value of a number of few digits, from its bytes alone, if [`read_word`] cannot read
/// it.
///
/// After its first byte is known to be a digit, the test of its kind costs nothing.
#[inline(never)]
fn read_more(node: Node) -> Option<u64>
    ensures { IfSome result (λ n. (n < 10 ^ 18) × (whole_of (tree node.entry) ≡ Some (pos n))) }
{
    let bytes = node.bytes();
    if !bytes[0].is_ascii_digit() {
        return None;
    }
    match node.kind() {
        Kind::Number => Decimal::read_few(bytes),
        _ => None,
    }
}

/// Returns the value of a number of at most eight digits. It reads the line there and does not test
/// the kind. None for any other value, and near the start of the line.
#[inline(always)]
#[tactic(auto, using(crate::proofs::Numbers::number_facts))]
fn read_word(node: Node) -> Option<u64>
    ensures { IfSome result (λ n. (n < 10 ^ 18) × (whole_of (tree node.entry) ≡ Some (pos n))) }
{
    let (start, stop) = node.span();
    Decimal::read_few_in(node.line(), start, stop)
}

/// Returns the value of a number of few digits, as nearly all indices are. None for any other
/// value.
#[inline(always)]
fn read_few(node: Node) -> Option<u64>
    ensures { IfSome result (λ n. (n < 10 ^ 18) × (whole_of (tree node.entry) ≡ Some (pos n))) }
{
    match read_word(node) {
        Some(whole) => Some(whole),
        None => read_more(node),
    }
}

/// Returns the value of a number of few digits, perhaps with a minus, as [`read_more`] reads it.
#[inline(never)]
fn read_more_signed(node: Node) -> Option<i64>
    ensures { IfSome result (λ w. whole_of (tree node.entry) ≡ Some w) }
{
    let bytes = node.bytes();
    if bytes[0] < b'-' || bytes[0] > b'9' {
        return None;
    }
    match node.kind() {
        Kind::Number => Decimal::read_few_signed(bytes),
        _ => None,
    }
}

/// Returns the value of a number of at most eight digits, perhaps with a minus, as [`read_word`]
/// reads it.
#[inline(always)]
#[tactic(auto, using(crate::proofs::Numbers::number_facts))]
fn read_word_signed(node: Node) -> Option<i64>
    ensures { IfSome result (λ w. whole_of (tree node.entry) ≡ Some w) }
{
    let (start, stop) = node.span();
    Decimal::read_few_signed_in(node.line(), start, stop)
}

/// Returns the value of a number of few digits, perhaps with a minus, as nearly all coordinates
/// are. None for any other value.
#[inline(always)]
fn read_few_signed(node: Node) -> Option<i64>
    ensures { IfSome result (λ w. whole_of (tree node.entry) ≡ Some w) }
{
    match read_word_signed(node) {
        Some(whole) => Some(whole),
        None => read_more_signed(node),
    }
}

/// Returns the value of any number that is in range and whole.
#[inline(never)]
fn read_any_whole(node: Node) -> Option<i64>
    ensures { result ≡ whole_of (tree node.entry) }
{
    match node.kind() {
        Kind::Number => match Decimal::read_whole(node.bytes()) {
            Ok(whole) => whole,
            Err(_) => None,
        },
        _ => None,
    }
}

/// Returns the value of a number that is in range and whole. None for any other value.
#[inline(always)]
pub fn read_whole(node: Node) -> Option<i64>
    ensures { result ≡ whole_of (tree node.entry) }
{
    match read_few_signed(node) {
        Some(whole) => Some(whole),
        None => read_any_whole(node),
    }
}

/// Returns the digits of a whole number as a word ([`Decimal::read_word_in`]), if they are at most
/// eight. None for any other whole number, and near the start of the line.
#[inline(always)]
#[tactic(auto, using(crate::proofs::Numbers::number_facts))]
pub fn read_whole_word(node: Node) -> Option<u64>
    requires { (w : ℤ) × (whole_of (tree node) ≡ Some w) }
    ensures { IfSome result (λ d. (n : ℕ) × IsWordOf d n × (whole_of (tree node.entry) ≡ Some (pos n))) }
{
    let (start, stop) = node.span();
    Decimal::read_word_in(node.line(), start, stop)
}

/// Returns the least number of few digits that is outside: the count if it is known, otherwise more
/// than any such number.
#[inline(always)]
fn bound_of(count: Option<u64>) -> u64
    ensures { (n : ℕ) → n < 10 ^ 18 → is_outside_of count (pos n) ≡ not (nat_lt n result) }
{
    match count {
        Some(count) => count,
        None => u64::MAX,
    }
}

/// Checks the index of any value, as [`check_index`] does.
#[inline(never)]
fn check_any_index(node: Node, outside: Reason, count: Option<u64>, found: &mut Least)
    ensures { found.new ≡ least found.old (index outside count (tree node.entry)) }
{
    match node.kind() {
        Kind::Number => match Decimal::read_whole(node.bytes()) {
            Ok(Some(whole)) => {
                if is_outside(count, whole) {
                    add(node, outside, found);
                }
            }
            Ok(None) => add(node, Reason::NotWhole, found),
            Err(fault) => add(node, reason_of(fault), found),
        },
        _ => add(node, Reason::WrongKind, found),
    }
}

/// Checks that the value is a number in range and whole. It must also be the index of one of
/// `count` things, from 0, if `count` is known. An index that is not has the reason `outside`.
#[inline(always)]
pub fn check_index(node: Node, outside: Reason, count: Option<u64>, found: &mut Least)
    ensures { found.new ≡ least found.old (index outside count (tree node.entry)) }
{
    match read_few(node) {
        Some(whole) => {
            if whole >= bound_of(count) {
                add(node, outside, found);
            }
        }
        None => check_any_index(node, outside, count, found),
    }
}

/// Checks that the value is a number in range and whole, of any sign and size.
#[inline(always)]
pub fn check_whole(node: Node, found: &mut Least)
    ensures { found.new ≡ least found.old (whole_number (tree node.entry)) }
{
    if read_few_signed(node).is_none() {
        check_any_index(node, Reason::NotWhole, None, found);
    }
}

/// Checks an index that [`is_few_below`] does not accept, as [`check_index`] does.
#[inline(never)]
fn check_other_index(node: Node, outside: Reason, count: Option<u64>, found: &mut Least)
    ensures { found.new ≡ least found.old (index outside count (tree node.entry)) }
{
    check_index(node, outside, count, found);
}

/// What indices must be below, if that is known: as a number, and as a word that tells of eight
/// digits whether they are below.
#[derive(Clone, Copy)]
pub struct Bound {
    pub count: Option<u64>,
    limit: u64,
    word: u64,
    ghost outside: { (n : ℕ) → n < 10 ^ 18 → is_outside_of count (pos n) ≡ not (nat_lt n limit) },
    ghost bounds: { IsBoundWord word limit },
}

impl Bound {
    /// Returns the bound that this count is.
    pub fn of(count: Option<u64>) -> Bound
        ensures { result.count ≡ count }
    {
        let limit = bound_of(count);
        let word = digits_word(limit);
        Bound { count, limit, word }
    }
}

/// Returns whether the value is a number of at most eight digits below the bound. It reads the line
/// as [`read_word`] does, and computes no value.
#[inline(always)]
#[tactic(auto, using(crate::proofs::Numbers::number_facts))]
pub(crate) fn is_few_below(node: Node, bound: Bound) -> bool
    ensures { IsTrue result → (n : ℕ) × (n < bound.limit) × (n < 10 ^ 18)
        × (whole_of (tree node.entry) ≡ Some (pos n)) }
{
    let (start, stop) = node.span();
    Decimal::is_few_below_in(node.line(), start, stop, bound.word)
}

/// Does what [`check_index`] does, with a bound. Nearly all indices are below it.
#[inline(always)]
#[tactic(auto, using(crate::proofs::Arrays::index_facts, crate::proofs::Numbers::number_facts))]
pub fn check_index_below(node: Node, outside: Reason, bound: Bound, found: &mut Least)
    ensures { found.new ≡ least found.old (index outside bound.count (tree node.entry)) }
{
    if !is_few_below(node, bound) {
        if !is_found_before(*found, node) {
            check_other_index(node, outside, bound.count, found);
        }
    }
}

/// Returns a number of items at the front of an array that are all indices below a bound. None of
/// them has a finding. It is at most the number of all such items there.
///
/// It reads only numbers of at most eight digits, one item after another, and does not look where
/// each ends. It stops at the first item that it does not accept.
#[inline(always)]
pub fn count_indices(node: Node, bound: Bound) -> u32
    ensures lone { AreLone result (items_of (tree node.entry)) }
    ensures none { (outside : ReasonOf)
        → flat_map (index outside bound.count) (take result (items_of (tree node.entry))) ≡ [] }
{
    let mut items = node.items();
    let mut front = 0;
    while let Some(item) = items.next() {
        if !is_few_below(item, bound) {
            break;
        }
        front += 1;
        items = node.items_behind(front);
    }
    front
}

/// Returns a number of items at the front of an array that are all whole numbers, read in the same
/// way. It too is at most the number of all such items there.
#[inline(always)]
pub fn count_wholes(node: Node) -> u32
    ensures lone { AreLone result (items_of (tree node.entry)) }
    ensures none { flat_map whole_number (take result (items_of (tree node.entry))) ≡ [] }
    ensures few { length (items_of (tree node.entry)) < 2 ^ 63 }
{
    let mut items = node.items();
    let mut front = 0;
    while let Some(item) = items.next() {
        if read_word_signed(item).is_none() {
            break;
        }
        front += 1;
        items = node.items_behind(front);
    }
    front
}

/// Returns whether the value is an array of three whole numbers, if a look at its bytes shows that
/// ([`Node::is_short_triple`]), as for nearly all vertices. It has no finding then.
#[inline(always)]
pub fn is_short_triple(node: Node) -> bool
    ensures { IsTrue result → (reason : ReasonOf) → of_length reason 3 whole_number (tree node.entry) ≡ [] }
{
    node.is_short_triple()
}

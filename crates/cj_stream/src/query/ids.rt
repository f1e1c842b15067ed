//! The ids of a query, kept so that one id is found among many.
//!
//! All ids are in one text, in the order in which they were added. For each id there is an entry.
//! The entries are in runs, and each run is sorted. A new entry is a run of its own. It joins the
//! runs before it that are at most [`RATIO`] times as long as all entries after them, and the
//! joined run is sorted. So each run is more than [`RATIO`] times as long as the next one. There
//! are few runs, and a binary search looks an id up in each. To add an id, some short runs are
//! sorted, and seldom a long one.
//!
//! The number of an entry is made of the last eight code points of its id. Entries are ordered by
//! number, and by text if the numbers are equal. The numbers are side by side in memory. So a
//! search reads the text of about one id, even if ids begin alike. The entry says where that text
//! is, so the search waits for memory once. If ids also end alike, each step compares texts. The
//! number of steps stays the same.
//!
//! After [`Ids::sort`] there is one run, and if it is long it has a sparse index: the number of
//! every [`DISTANCE`]th entry. The sparse index picks some neighbouring entries, which are compared
//! one after another. That waits for memory about once, and a binary search of the run several
//! times. It is a hint. The picked entries are used only if the first and the last of them show
//! that no other entry has the number. Otherwise the whole run is searched. So the proof needs no
//! fact about it.
ghost use Rattle.std.specs.Prelude.{◌≡◌, ◌+◌, ◌-◌, ◌<◌, ◌≤◌, ◌^◌, [], ◌∷◌, ◌++◌, length, take, drop, sum, vec_items};
ghost use Rattle.std.specs.Prelude.{vec_len, vec_capacity, string_bytes, string_len, string_capacity, OnOk, OnErr};
ghost use Rattle.std.specs.Prelude.{IfSome};
ghost use Rattle.std.specs.List.{list_any};
ghost use Rattle.std.specs.List.Sorted.{IsNonDecreasingBy, IsPermutation};
ghost use Rattle.std.specs.Ordering.{is_eq};
ghost use Rattle.cj_spans.specs.Meaning.Parts.{text_of};
ghost use Rattle.cj_spans.specs.View.{tree};
ghost use Rattle.cj_stream.specs.Adding.{with_text};
ghost use Rattle.cj_stream.specs.Meaning.Criteria.{is_one_of as is_one};
ghost use Rattle.cj_stream.specs.Ids.{key_of, compare_keys, pieces, piece, key_at, keys_at, Ascend, AreRuns};
ghost use Rattle.cj_stream.specs.Ids.{AreIndexed, HasAllOf};
ghost use Rattle.cj_stream.specs.Sink.{HasRisen, counted};

use cj_budget::{NoMemory, Refusals};
use cj_spans::{Node, compare_strings, tail_of_string};
use std::alloc::Global;
use std::cmp::Ordering;
use std::marker::Model;

/// A run stays a run only if it is more than this many times as long as all entries after it.
const RATIO: usize = 16;

/// The distance between entries whose numbers are in a sparse index.
const DISTANCE: usize = 32;

/// The least number of entries in a run that has a sparse index.
const LONG: usize = 64;

/// The end of an id as a number, and where the id is in the text.
#[derive(Clone, Copy)]
struct Entry {
    number: u64,
    start: usize,
    end: usize,
}

/// Ids in the order in which they were added: one text of all, and the length of each.
#[derive(Drop)]
pub struct Ids {
    text: String,
    lengths: Vec<usize>,
    entries: Vec<Entry>,
    runs: Vec<usize>,
    sparse_index: Vec<u64>,
}

impl Model for Ids {
    ghost use Rattle.std.specs.Prelude.{ℕ, List, string_bytes, vec_items};

    ghost Value = { List (List ℕ) };

    ghost use Rattle.cj_stream.specs.Ids.{pieces, AreIndexed};

    ghost view = { λ a. pieces (string_bytes a.text) (vec_items a.lengths) };

    ghost invariant = { λ a. AreIndexed (string_bytes a.text) (vec_items a.lengths) (vec_items a.entries)
        (vec_items a.runs) };
}

/// Returns the id of an entry, or the empty text if the text may not be cut there.
fn text_at(text: &str, entry: Entry) -> &str
    ensures { result.now ≡ piece text.now entry.start entry.end }
{
    let Entry { start, end, .. } = entry;
    if start <= end && text.is_char_boundary(start) && text.is_char_boundary(end) {
        &text[start..end]
    } else {
        ""
    }
}

/// Compares two entries.
fn compare_entries(text: &str, first: Entry, second: Entry) -> Ordering
    ensures { result ≡ compare_keys (key_at text.now first) (key_at text.now second) }
{
    match first.number.cmp(&second.number) {
        Ordering::Equal => compare_strings(text_at(text, first), text_at(text, second)),
        order => order,
    }
}

/// Compares an entry with a node. `number` is that of the node's text.
fn compare_with_node(text: &str, entry: Entry, number: u64, node: Node) -> Ordering
    ensures { result
        ≡ compare_keys (key_at text.now entry) (record { number = number; text = text_of (tree node.entry) }) }
{
    match entry.number.cmp(&number) {
        Ordering::Equal => node.compare_with(text_at(text, entry)).reverse(),
        order => order,
    }
}

/// Returns whether a node has the text of an entry. `number` is that of the node's text.
fn is_of(text: &str, entry: Entry, number: u64, node: Node) -> bool
    ensures { result
        ≡ is_eq (compare_keys (key_at text.now entry) (record { number = number; text = text_of (tree node.entry) })) }
{
    entry.number == number && node.text_is(text_at(text, entry))
}

/// Sorts the entries from index `start` on.
fn sort_from(text: &str, entries: &mut [Entry], start: usize)
    requires { start ≤ length entries.old }
    ensures kept { take start entries.new ≡ take start entries.old }
    ensures moved { IsPermutation entries.old entries.new }
    ensures ascends { Ascend (keys_at text.now (drop start entries.new)) }
{
    entries[start..].sort_unstable_by(|first, second| compare_entries(text, *first, *second));
}

/// Adds a value at the end of a list that has capacity for it.
fn put<T: Drop>(list: &mut Vec<T>, value: T)
    requires { vec_len list.old < vec_capacity list.old }
    ensures { vec_items list.new ≡ vec_items list.old ++ value ∷ [] }
{
    let _ = list.push(value);
}

/// Removes the runs that one more entry joins. Returns how many entries the joined run has with it.
fn join_last(runs: &mut Vec<usize>) -> usize
    requires { sum (vec_items runs.old) < 2 ^ 63 }
    ensures front { vec_items runs.new ≡ take (length (vec_items runs.new)) (vec_items runs.old) }
    ensures room { vec_len runs.new ≤ vec_len runs.old }
    ensures capacity { vec_capacity runs.new ≡ vec_capacity runs.old }
    ensures count { sum (vec_items runs.new) + result ≡ sum (vec_items runs.old) + 1 }
{
    let mut count = 1;
    while let Some(last) = runs.last() {
        let last = *last;
        if last / RATIO > count {
            break;
        }
        count += last;
        runs.pop();
    }
    count
}

/// Returns how many numbers the sparse index of a run of this many entries has.
fn sparse_count(entries: usize) -> usize {
    if entries < LONG {
        0
    } else {
        entries / DISTANCE + 1
    }
}

/// Reserves memory for `more` bytes of text, and for their length. A failed growth changes neither.
fn make_text_room(
    text: &mut String,
    lengths: &mut Vec<usize>,
    more: usize,
    failed_growths: &mut Refusals,
) -> Result<(), NoMemory>
    ensures text { string_bytes text.new ≡ string_bytes text.old }
    ensures lengths { vec_items lengths.new ≡ vec_items lengths.old }
    ensures room { OnOk result ((string_len text.new + more ≤ string_capacity text.new)
        × (vec_len lengths.new < vec_capacity lengths.new)) }
    ensures cause { OnErr result (HasRisen failed_growths.old failed_growths.new) }
    ensures count { failed_growths.new ≡ counted failed_growths.old result }
{
    failed_growths.note(text.reserve(more))?;
    failed_growths.note(lengths.reserve(1))
}

/// Reserves memory for one entry more. A failed growth changes no list.
fn make_entry_room(
    entries: &mut Vec<Entry>,
    runs: &mut Vec<usize>,
    sparse_index: &mut Vec<u64>,
    failed_growths: &mut Refusals,
) -> Result<(), NoMemory>
    ensures entries { vec_items entries.new ≡ vec_items entries.old }
    ensures runs { vec_items runs.new ≡ vec_items runs.old }
    ensures room { OnOk result ((vec_len entries.new < vec_capacity entries.new)
        × (vec_len runs.new < vec_capacity runs.new)) }
    ensures cause { OnErr result (HasRisen failed_growths.old failed_growths.new) }
    ensures count { failed_growths.new ≡ counted failed_growths.old result }
{
    failed_growths.note(entries.reserve(1))?;
    failed_growths.note(runs.reserve(1))?;
    failed_growths.note(sparse_index.reserve(sparse_count(entries.len())))
}

/// Adds an id at the end, where its memory is reserved, and puts its entry in order.
fn add_entry(
    text: &mut String,
    lengths: &mut Vec<usize>,
    entries: &mut Vec<Entry>,
    runs: &mut Vec<usize>,
    id: &str,
)
    requires indexed { AreIndexed (string_bytes text.old) (vec_items lengths.old) (vec_items entries.old)
        (vec_items runs.old) }
    requires text_room { string_len text.old + length id.now ≤ string_capacity text.old }
    requires length_room { vec_len lengths.old < vec_capacity lengths.old }
    requires entry_room { vec_len entries.old < vec_capacity entries.old }
    requires run_room { vec_len runs.old < vec_capacity runs.old }
    ensures added { pieces (string_bytes text.new) (vec_items lengths.new)
        ≡ pieces (string_bytes text.old) (vec_items lengths.old) ++ id.now ∷ [] }
    ensures indexed { AreIndexed (string_bytes text.new) (vec_items lengths.new) (vec_items entries.new)
        (vec_items runs.new) }
{
    let begin = text.len();
    let _never_fails = text.push_str(id);
    let entry = Entry {
        number: tail_of_string(id),
        start: begin,
        end: text.len(),
    };
    let count = join_last(runs);
    put(lengths, id.len());
    put(entries, entry);
    put(runs, count);
    let start = entries.len() - count;
    sort_from(text.as_str(), entries.as_mut_slice(), start);
}

/// Puts all entries in one run.
fn join_all(text: &str, lengths: &[usize], entries: &mut [Entry], runs: &mut Vec<usize>)
    requires { AreIndexed text.now lengths.now entries.old (vec_items runs.old) }
    ensures { AreIndexed text.now lengths.now entries.new (vec_items runs.new) }
{
    if runs.is_empty() {
        return;
    }
    sort_from(text, entries, 0);
    runs.clear();
    put(runs, entries.len());
}

/// Fills the sparse index of a run, as far as there is capacity.
///
/// Heads are a hint. If they are different or fewer, a search takes longer and finds the same ids.
fn fill_sparse_index(run: &[Entry], sparse_index: &mut Vec<u64>) {
    sparse_index.clear();
    for place in 0..sparse_count(run.len()) {
        if sparse_index.len() < sparse_index.capacity() {
            if let Some(entry) = run.get(place.saturating_mul(DISTANCE)) {
                put(sparse_index, entry.number);
            }
        }
    }
}

/// Returns the entries from `start` to `end` of a run, if no other entry has this number.
///
/// The first of them must have a lesser number or begin the run. The last must have a greater one
/// or end the run.
fn part_between(run: &[Entry], start: usize, end: usize, number: u64) -> Option<&[Entry]>
    requires { IsNonDecreasingBy (λ (entry : Entry). entry.number) run.now }
    ensures { IfSome result (λ part. HasAllOf number part.now run.now) }
{
    let end = end.min(run.len());
    if start >= end || (start > 0 && run[start].number >= number) {
        return None;
    }
    if end < run.len() && run[end - 1].number <= number {
        return None;
    }
    Some(&run[start..end])
}

/// Returns how many numbers of a sparse index are less than a number, if they never decrease.
///
/// Each step reduces the rest to about a quarter. The number of steps depends only on the length,
/// and no step has a branch, so the processor has nothing to predict.
fn numbers_before(sparse_index: &[u64], number: u64) -> usize {
    let mut before = 0usize;
    let mut rest = sparse_index;
    while rest.len() >= 4 {
        let quarter = rest.len() / 4;
        let less = usize::from(rest[quarter] < number)
            + usize::from(rest[quarter * 2] < number)
            + usize::from(rest[quarter * 3] < number);
        let start = quarter.wrapping_mul(less);
        let end = start.wrapping_add(rest.len() - quarter * 3);
        let Some(part) = rest.get(start..end) else {
            break;
        };
        before = before.wrapping_add(start);
        rest = part;
    }
    before.wrapping_add(rest.iter().filter(|first| **first < number).count())
}

/// Returns the entries of a run that include all with this number, as its sparse index shows. None
/// if the sparse index does not show it.
fn part_of<'a>(sparse_index: &[u64], run: &'a [Entry], number: u64) -> Option<&'a [Entry]>
    requires { IsNonDecreasingBy (λ (entry : Entry). entry.number) run.now }
    ensures { IfSome result (λ part. HasAllOf number part.now run.now) }
{
    if sparse_index.is_empty() {
        return None;
    }
    let place = numbers_before(sparse_index, number);
    let start = place.saturating_sub(1).saturating_mul(DISTANCE);
    let end = place.saturating_mul(DISTANCE).saturating_add(2);
    part_between(run, start, end, number)
}

/// Returns whether a node has the text of one of these entries.
fn is_among(text: &str, entries: &[Entry], number: u64, node: Node) -> bool
    ensures { result ≡ list_any
        (λ key. is_eq (compare_keys key (record { number = number; text = text_of (tree node.entry) })))
        (keys_at text.now entries.now) }
{
    for entry in entries {
        if is_of(text, *entry, number, node) {
            return true;
        }
    }
    false
}

/// Returns whether a node has the text of an entry of a run.
fn is_in_run(text: &str, run: &[Entry], number: u64, node: Node) -> bool
    requires { Ascend (keys_at text.now run.now) }
    ensures { result ≡ list_any
        (λ key. is_eq (compare_keys key (record { number = number; text = text_of (tree node.entry) })))
        (keys_at text.now run.now) }
{
    run.binary_search_by(|entry| compare_with_node(text, *entry, number, node))
        .is_ok()
}

/// Returns whether a node has the text of an entry of a run that may have a sparse index.
fn is_in_run_of(text: &str, sparse_index: &[u64], run: &[Entry], number: u64, node: Node) -> bool
    requires { Ascend (keys_at text.now run.now) }
    ensures { result ≡ list_any
        (λ key. is_eq (compare_keys key (record { number = number; text = text_of (tree node.entry) })))
        (keys_at text.now run.now) }
{
    match part_of(sparse_index, run, number) {
        Some(part) => is_among(text, part, number, node),
        None => is_in_run(text, run, number, node),
    }
}

/// Returns whether a node has the text of an entry of some run. Only the first run may have a
/// sparse index.
fn is_in_runs(
    text: &str,
    sparse_index: &[u64],
    entries: &[Entry],
    runs: &[usize],
    node: Node,
) -> bool
    requires { AreRuns (keys_at text.now entries.now) runs.now }
    ensures { result ≡ list_any (λ key. is_eq (compare_keys key (key_of (text_of (tree node.entry)))))
        (keys_at text.now entries.now) }
{
    let number = node.text_tail();
    let mut rest = entries;
    let mut sparse_index = sparse_index;
    for length in runs {
        let (run, others) = rest.split_at(*length);
        if is_in_run_of(text, sparse_index, run, number, node) {
            return true;
        }
        rest = others;
        sparse_index = &[];
    }
    false
}

impl Ids {
    /// Returns an empty list of ids. It allocates nothing.
    pub fn new(alloc: Global) -> Ids
        ensures { result ≡ [] }
    {
        Ids {
            text: String::new(alloc),
            lengths: Vec::new(alloc),
            entries: Vec::new(alloc),
            runs: Vec::new(alloc),
            sparse_index: Vec::new(alloc),
        }
    }

    /// Adds an id at the end. A failed growth changes nothing here.
    fn push(&mut self, id: &str, failed_growths: &mut Refusals) -> Result<(), NoMemory>
        ensures ok { OnOk result (self.new ≡ self.old ++ id.now ∷ []) }
        ensures err { OnErr result (self.new ≡ self.old) }
        ensures cause { OnErr result (HasRisen failed_growths.old failed_growths.new) }
        ensures count { failed_growths.new ≡ counted failed_growths.old result }
    {
        make_text_room(&mut self.text, &mut self.lengths, id.len(), failed_growths)?;
        make_entry_room(
            &mut self.entries,
            &mut self.runs,
            &mut self.sparse_index,
            failed_growths,
        )?;
        add_entry(
            &mut self.text,
            &mut self.lengths,
            &mut self.entries,
            &mut self.runs,
            id,
        );
        Ok(())
    }

    /// Puts all entries in one sorted run. An id is then found in about half of the steps that
    /// several runs need, and in fewer if there are many ids.
    pub fn sort(&mut self)
        ensures { self.new ≡ self.old }
    {
        join_all(
            self.text.as_str(),
            self.lengths.as_slice(),
            self.entries.as_mut_slice(),
            &mut self.runs,
        );
        fill_sparse_index(self.entries.as_slice(), &mut self.sparse_index);
    }

    /// Returns whether a node has the text of one of the ids.
    pub fn has(&self, node: Node) -> bool
        ensures { result ≡ is_one self.now (tree node.entry) }
    {
        is_in_runs(
            self.text.as_str(),
            self.sparse_index.as_slice(),
            self.entries.as_slice(),
            self.runs.as_slice(),
            node,
        )
    }
}

/// Adds an id at the end of a part. A part that was not set begins empty. A failed growth leaves
/// the part unchanged.
pub fn add_id(
    alloc: Global,
    part: &mut Option<Ids>,
    text: &str,
    failed_growths: &mut Refusals,
) -> Result<(), NoMemory>
    ensures ok { OnOk result (part.new ≡ with_text text.now part.old) }
    ensures err { OnErr result (part.new ≡ part.old) }
    ensures cause { OnErr result (HasRisen failed_growths.old failed_growths.new) }
    ensures count { failed_growths.new ≡ counted failed_growths.old result }
{
    match part {
        Some(ids) => ids.push(text, failed_growths),
        None => {
            let mut ids = Ids::new(alloc);
            ids.push(text, failed_growths)?;
            *part = Some(ids);
            Ok(())
        }
    }
}

//! Where the fault of a request is.
ghost use Rattle.std.specs.Prelude.{◌≡◌, Some, None, Ok, Err, if◌then◌else◌};
ghost use Rattle.std.specs.List.{prefix_len};
ghost use Rattle.cj_stream.specs.Adding.{parted};
ghost use Rattle.cj_stream.specs.BoxText.{edge, is_edge, is_number};
ghost use Rattle.cj_stream.specs.declared.query.fault.QueryFault.TheVariants.{BadBox};
ghost use Rattle.cityseq_c.specs.FaultPlace.{edge_at as edge_in, empty_item as empty_item_in, fault_place as place_of};
ghost use Rattle.cityseq_c.specs.FaultPlace.{has_edge, is_kept, text_place as text_place_in};
ghost use Rattle.cityseq_c.specs.FaultPlace.{is_broken as is_broken_text, is_name as is_name_of_type};

use crate::request::{Fault, Request};
use cj_decimal::{Decimal, DecimalFault, Fixed18};
use cj_stream::{QueryFault, is_type_name};

/// The numbers of the lists of a request, each a `cityseq_list`. 0 stands for none.
const IDS: u64 = 1;

const TYPES: u64 = 2;

const LODS: u64 = 3;

const BOX: u64 = 4;

/// The numbers of a box.
const EDGES: u64 = 4;

/// Where the fault of a request is.
#[derive(Clone, Copy, Debug, PartialEq, Eq)]
pub struct FaultPlace {
    /// The list that has the fault, a `cityseq_list`. 0 if no list has it.
    pub list: u64,
    /// The text or the number in this list, from 0. Else 0.
    pub item: u64,
}

/// What each item of a list must be.
#[derive(Clone, Copy, Debug)]
pub enum ItemRule {
    /// A text in UTF-8.
    Utf8,
    /// The name of a type of city objects. `extensions` is whether types of extensions are known.
    TypeName { extensions: bool },
    /// A number of JSON.
    Number,
    /// A number that an edge of a box can be.
    Edge,
}

/// Returns whether an item is the name of a type of city objects.
fn is_name(item: &[u8], extensions: bool) -> bool
    ensures { result ≡ is_name_of_type extensions item.now }
{
    match str::from_utf8(item) {
        Ok(name) => is_type_name(name, extensions),
        Err(_) => false,
    }
}

/// Returns the number of a field of a box. None if no edge can be this number.
///
/// # Errors
///
/// `BadBox` if the field is no number.
fn read_edge(field: &[u8]) -> Result<Option<Fixed18>, QueryFault>
    ensures { result
        ≡ (if is_number field.now then Ok (if is_edge field.now then Some (edge field.now) else None) else Err BadBox) }
{
    match Decimal::read(field) {
        Ok(number) => Ok(number.fixed18()),
        Err(DecimalFault::NumberRange) => Ok(None),
        Err(DecimalFault::NotANumber) => Err(QueryFault::BadBox),
    }
}

/// Returns the number of a field of a box, if an edge can be this number.
fn edge_of(field: &[u8]) -> Option<Fixed18>
    ensures { result ≡ has_edge field.now }
{
    match read_edge(field) {
        Ok(edge) => edge,
        Err(_) => None,
    }
}

impl ItemRule {
    /// Returns whether an item keeps the rule.
    fn is_kept(self, item: &[u8]) -> bool
        ensures { result ≡ is_kept self item.now }
    {
        match self {
            ItemRule::Utf8 => str::from_utf8(item).is_ok(),
            ItemRule::TypeName { extensions } => is_name(item, extensions),
            ItemRule::Number => read_edge(item).is_ok(),
            ItemRule::Edge => edge_of(item).is_some(),
        }
    }
}

/// Returns how many items of a list come before the first one that breaks a rule.
fn items_before(list: &[u8], separator: u8, rule: ItemRule) -> u64
    ensures { result ≡ prefix_len (is_kept rule) (parted separator list.now) }
{
    list.split(|byte| *byte == separator)
        .take_while(|item| rule.is_kept(item))
        .count() as u64
}

/// Returns whether a text is asked for and is not UTF-8.
fn is_broken(asked: bool, text: &[u8]) -> bool
    ensures { result ≡ is_broken_text asked text.now }
{
    asked && str::from_utf8(text).is_err()
}

/// Returns where the first text is that a request asks for and that is not UTF-8.
fn text_place(request: &Request<'_>) -> FaultPlace
    ensures { result ≡ text_place_in request.now }
{
    let (list, text, separator) = if is_broken(request.asks_ids, request.ids) {
        (IDS, request.ids, b'\n')
    } else if is_broken(request.asks_types, request.types) {
        (TYPES, request.types, b'\n')
    } else if is_broken(request.asks_lods, request.lods) {
        (LODS, request.lods, b'\n')
    } else {
        (BOX, request.bbox, b',')
    };
    FaultPlace {
        list,
        item: items_before(text, separator, ItemRule::Utf8),
    }
}

/// Returns the edge at an index of a box. None if there is no such number that an edge can be.
fn edge_at(bbox: &[u8], index: usize) -> Option<Fixed18>
    ensures { result ≡ edge_in bbox.now index }
{
    match bbox.split(|byte| *byte == b',').nth(index) {
        Some(field) => edge_of(field),
        None => None,
    }
}

/// Returns which least edge of an empty box is above the greatest: 0 on x, and else 1.
fn empty_item(bbox: &[u8]) -> u64
    ensures { result ≡ empty_item_in bbox.now }
{
    match (edge_at(bbox, 0), edge_at(bbox, 2)) {
        (Some(least), Some(greatest)) if greatest.units() < least.units() => 0,
        _ => 1,
    }
}

/// Returns where the fault of a request is, given what is wrong with it.
pub fn fault_place(request: &Request<'_>, fault: Fault) -> FaultPlace
    ensures { result ≡ place_of request.now fault }
{
    match fault {
        Fault::NotUtf8 => text_place(request),
        Fault::UnknownType => FaultPlace {
            list: TYPES,
            item: items_before(
                request.types,
                b'\n',
                ItemRule::TypeName {
                    extensions: request.extensions,
                },
            ),
        },
        Fault::BadBox => FaultPlace {
            list: BOX,
            item: items_before(request.bbox, b',', ItemRule::Number).min(EDGES),
        },
        Fault::BoxRange => FaultPlace {
            list: BOX,
            item: items_before(request.bbox, b',', ItemRule::Edge),
        },
        Fault::EmptyBox => FaultPlace {
            list: BOX,
            item: empty_item(request.bbox),
        },
        Fault::LineLimit | Fault::DepthLimit | Fault::NoLine | Fault::TooLong => {
            FaultPlace { list: 0, item: 0 }
        }
    }
}

//! Makes the query of a request.
ghost use Rattle.std.specs.Prelude.{◌≡◌, ◌<◌, None, Some, Ok, IfOk, IfErr, OnOk, length};
ghost use Rattle.cj_stream.specs.Adding.{setting_types};
ghost use Rattle.cj_stream.specs.Query.{criteria};
ghost use Rattle.cityseq_c.specs.Query.{Reads, DeclinesNames, DeclinesPart, DeclinesQuery, DeclinesTexts};
ghost use Rattle.cityseq_c.specs.Request.{AsksFor, box_asked, box_fault as fault_of_box, ids_asked, items, lods_asked};
ghost use Rattle.cityseq_c.specs.Query.{type_fault as fault_of_type, DeclinesTypes};
ghost use Rattle.cityseq_c.specs.Request.{text_asked, types_asked};

use crate::request::{Fault, NotJudged, Request};
use cj_stream::{Query, QueryFault};
use std::alloc::Global;

/// Returns a text of a request. None if the request does not ask for it.
///
/// # Errors
///
/// `NotUtf8` if it is asked for and is not UTF-8.
fn text_of(asked: bool, text: &[u8]) -> Result<Option<&str>, NotJudged>
    ensures { Reads (text_asked asked text.now) result }
{
    if !asked {
        return Ok(None);
    }
    match str::from_utf8(text) {
        Ok(text) => Ok(Some(text)),
        Err(_) => Err(NotJudged::Fault(Fault::NotUtf8)),
    }
}

/// Sets the part on ids to the texts between the LFs of `ids`. An empty `ids` has no text.
///
/// # Errors
///
/// `Memory` if no memory was granted.
fn add_ids(query: &mut Query, ids: &str) -> Result<(), NotJudged>
    ensures ok { OnOk result (criteria query.new ≡ record (criteria query.old) { ids = Some (items ids.now) }) }
    ensures memory { IfErr result (λ why. (why ≡ NotJudged.Memory) × (0 < length (items ids.now))) }
{
    if ids.is_empty() {
        query.start_ids();
        return Ok(());
    }
    match query.set_ids(ids, '\n') {
        Ok(()) => Ok(()),
        Err(_) => Err(NotJudged::Memory),
    }
}

/// Sets the part on LoDs to the texts between the LFs of `lods`. An empty `lods` has no text.
///
/// # Errors
///
/// `Memory` if no memory was granted.
fn add_lods(query: &mut Query, lods: &str) -> Result<(), NotJudged>
    ensures ok { OnOk result (criteria query.new ≡ record (criteria query.old) { lods = Some (items lods.now) }) }
    ensures memory { IfErr result (λ why. (why ≡ NotJudged.Memory) × (0 < length (items lods.now))) }
{
    if lods.is_empty() {
        query.start_lods();
        return Ok(());
    }
    match query.set_lods(lods, '\n') {
        Ok(()) => Ok(()),
        Err(_) => Err(NotJudged::Memory),
    }
}

/// Returns why nothing is judged if the query declines a name of a type.
fn type_fault(fault: QueryFault) -> NotJudged
    ensures { result ≡ fault_of_type fault }
{
    match fault {
        QueryFault::Memory => NotJudged::Memory,
        QueryFault::UnknownTypeName
        | QueryFault::BadBox
        | QueryFault::BoxRange
        | QueryFault::EmptyBox => NotJudged::Fault(Fault::UnknownType),
    }
}

/// Sets the part on types to those with the names between the LFs of `types`. An empty `types` has
/// no name.
///
/// # Errors
///
/// The first of these: `UnknownType` if no type has one of the names, and `Memory` if no memory was
/// granted for the name of a type of an extension.
fn add_types(query: &mut Query, types: &str, extensions: bool) -> Result<(), NotJudged>
    ensures ok { OnOk result
        (setting_types extensions (items types.now) (criteria query.old) ≡ Some (criteria query.new)) }
    ensures declined { IfErr result (DeclinesNames extensions (items types.now)) }
{
    if types.is_empty() {
        query.start_types();
        return Ok(());
    }
    match query.set_types(types, '\n', extensions) {
        Ok(()) => Ok(()),
        Err(fault) => Err(type_fault(fault)),
    }
}

/// Returns the fault of a request whose box the query rejects.
fn box_fault(fault: QueryFault) -> Fault
    ensures { result ≡ fault_of_box fault }
{
    match fault {
        QueryFault::BoxRange => Fault::BoxRange,
        QueryFault::EmptyBox => Fault::EmptyBox,
        QueryFault::UnknownTypeName => Fault::UnknownType,
        QueryFault::BadBox | QueryFault::Memory => Fault::BadBox,
    }
}

/// Sets the part on ids, if the request asks for it.
///
/// # Errors
///
/// `NotUtf8` if the text is not UTF-8. `Memory` if no memory was granted.
fn set_ids(query: &mut Query, request: &Request<'_>) -> Result<(), NotJudged>
    requires { (criteria query.old).ids ≡ None }
    ensures ok { OnOk result ((ids_asked request.now ≡ Ok (criteria query.new).ids)
        × (criteria query.new ≡ record (criteria query.old) { ids = (criteria query.new).ids })) }
    ensures declined { IfErr result (DeclinesTexts (ids_asked request.now)) }
{
    match text_of(request.asks_ids, request.ids)? {
        Some(ids) => add_ids(query, ids),
        None => Ok(()),
    }
}

/// Sets the part on types, if the request asks for it.
///
/// # Errors
///
/// `NotUtf8` if the text is not UTF-8. Else the first of these: `UnknownType` if no type has one of
/// the names, and `Memory` if no memory was granted for the name of a type of an extension.
fn set_types(query: &mut Query, request: &Request<'_>) -> Result<(), NotJudged>
    requires { (criteria query.old).types ≡ None }
    ensures ok { OnOk result ((types_asked request.now ≡ Ok (criteria query.new).types)
        × (criteria query.new ≡ record (criteria query.old) { types = (criteria query.new).types })) }
    ensures declined { IfErr result (DeclinesTypes request.now) }
{
    match text_of(request.asks_types, request.types)? {
        Some(types) => add_types(query, types, request.extensions),
        None => Ok(()),
    }
}

/// Sets the part on LoDs, if the request asks for it.
///
/// # Errors
///
/// `NotUtf8` if the text is not UTF-8. `Memory` if no memory was granted.
fn set_lods(query: &mut Query, request: &Request<'_>) -> Result<(), NotJudged>
    requires { (criteria query.old).lods ≡ None }
    ensures ok { OnOk result ((lods_asked request.now ≡ Ok (criteria query.new).lods)
        × (criteria query.new ≡ record (criteria query.old) { lods = (criteria query.new).lods })) }
    ensures declined { IfErr result (DeclinesTexts (lods_asked request.now)) }
{
    match text_of(request.asks_lods, request.lods)? {
        Some(lods) => add_lods(query, lods),
        None => Ok(()),
    }
}

/// Sets the box, if the request asks for it.
///
/// # Errors
///
/// `NotUtf8` if the text is not UTF-8. `BadBox`, `BoxRange` or `EmptyBox` if it is no box.
fn set_box(query: &mut Query, request: &Request<'_>) -> Result<(), NotJudged>
    requires { (criteria query.old).box ≡ None }
    ensures ok { OnOk result ((box_asked request.now ≡ Ok (criteria query.new).box)
        × (criteria query.new ≡ record (criteria query.old) { box = (criteria query.new).box })) }
    ensures declined { IfErr result (DeclinesPart (box_asked request.now)) }
{
    match text_of(request.asks_box, request.bbox)? {
        Some(bbox) => match query.bbox(bbox) {
            Ok(()) => Ok(()),
            Err(fault) => Err(NotJudged::Fault(box_fault(fault))),
        },
        None => Ok(()),
    }
}

/// Returns the query that a request asks for. It reads the parts in this order: ids, types, LoDs,
/// box.
///
/// # Errors
///
/// The first fault of the parts in this order, or `Memory` if no memory was granted.
pub fn query_of(alloc: Global, request: &Request<'_>) -> Result<Query, NotJudged>
    ensures ok { IfOk result (λ query. AsksFor request.now (criteria query)) }
    ensures declined { IfErr result (DeclinesQuery request.now) }
{
    let mut query = Query::all(alloc);
    set_ids(&mut query, request)?;
    set_types(&mut query, request)?;
    set_lods(&mut query, request)?;
    set_box(&mut query, request)?;
    Ok(query)
}

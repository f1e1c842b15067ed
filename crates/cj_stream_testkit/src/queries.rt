//! Queries, by their parts.
use cj_stream::{Query, QueryFault};
use std::alloc::Global;

/// The parts of a query, as a user gives them.
#[derive(Clone, Copy)]
pub struct Parts<'a> {
    pub ids: Option<&'a [&'a str]>,
    pub types: Option<&'a [&'a str]>,
    pub lods: Option<&'a [&'a str]>,
    pub bounds: Option<&'a str>,
}

/// No part is set.
pub const ALL: Parts = Parts {
    ids: None,
    types: None,
    lods: None,
    bounds: None,
};

/// Returns a query by ids, by types, by LoDs and by a box.
pub const fn by_ids<'a>(ids: &'a [&'a str]) -> Parts<'a> {
    Parts {
        ids: Some(ids),
        ..ALL
    }
}

pub const fn by_types<'a>(types: &'a [&'a str]) -> Parts<'a> {
    Parts {
        types: Some(types),
        ..ALL
    }
}

pub const fn by_lods<'a>(lods: &'a [&'a str]) -> Parts<'a> {
    Parts {
        lods: Some(lods),
        ..ALL
    }
}

pub const fn by_box(bounds: &str) -> Parts<'_> {
    Parts {
        bounds: Some(bounds),
        ..ALL
    }
}

fn set_ids(query: &mut Query, ids: &[&str]) -> Result<(), QueryFault> {
    query.start_ids();
    for id in ids {
        query.add_id(id)?;
    }
    Ok(())
}

fn set_types(query: &mut Query, types: &[&str]) -> Result<(), QueryFault> {
    query.start_types();
    for name in types {
        query.add_type(name, false)?;
    }
    Ok(())
}

fn set_lods(query: &mut Query, lods: &[&str]) -> Result<(), QueryFault> {
    query.start_lods();
    for lod in lods {
        query.add_lod(lod)?;
    }
    Ok(())
}

/// Returns the query of these parts.
pub fn query_of(alloc: Global, parts: &Parts) -> Result<Query, QueryFault> {
    let mut query = Query::all(alloc);
    if let Some(ids) = parts.ids {
        set_ids(&mut query, ids)?;
    }
    if let Some(types) = parts.types {
        set_types(&mut query, types)?;
    }
    if let Some(lods) = parts.lods {
        set_lods(&mut query, lods)?;
    }
    if let Some(bounds) = parts.bounds {
        query.bbox(bounds)?;
    }
    Ok(query)
}

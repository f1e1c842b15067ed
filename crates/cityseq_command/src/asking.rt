//! What the words ask for: an `Ask` with its limits and its query, or why there is none.
ghost use Rattle.std.specs.Prelude.{◌≡◌, Ok, IfOk, IfErr, map, string_bytes};
ghost use Rattle.cj_stream.specs.Query.{criteria};
ghost use Rattle.cityseq_command.specs.Options.{criteria_by, texts_of, DeclinesTexts};
ghost use Rattle.cityseq_command.specs.Performed.{TakesOptions};
ghost use Rattle.cityseq_command.specs.Words.{AsksBy, AsksFor, MayDecline, DeclinesOptions};

use crate::ask::Ask;
use crate::words::{
    QueryTexts, check_options, filter_options, info_options, limits_of, read_words, texts_of,
};
use cj_budget::LimitFault;
use cj_stream::{Query, QueryFault};
use clap::{ArgMatches, Error};
use std::alloc::Global;

/// Why nothing is done with the stream.
#[derive(Drop)]
pub enum NoAsk {
    /// The words are wrong, or they ask for help.
    Words(Error),
    /// The words name no command of the program. `clap` rejects such words earlier.
    NoCommand,
    /// A limit is out of its range. `clap` rejects such a number earlier.
    Limits(LimitFault),
    /// The query is invalid, or memory for it was refused.
    Query(QueryFault),
}

/// Returns what the words ask for. The first word is the program's name.
///
/// # Errors
///
/// Why nothing is done with the stream.
pub fn read_ask(alloc: Global, words: &[String]) -> Result<Ask, NoAsk>
    ensures ok { IfOk result (AsksFor (map string_bytes words.now)) }
    ensures takes { IfOk result TakesOptions }
    ensures err { IfErr result (MayDecline (map string_bytes words.now)) }
{
    let matches = match read_words(alloc, words) {
        Ok(matches) => matches,
        Err(error) => return Err(NoAsk::Words(error)),
    };
    match matches.subcommand() {
        Some((name, options)) => ask_of(alloc, name, options),
        None => Err(NoAsk::NoCommand),
    }
}

/// Returns what a command with these options asks for.
fn ask_of(alloc: Global, name: &str, options: &ArgMatches) -> Result<Ask, NoAsk>
    ensures ok { IfOk result (λ ask. AsksBy name.now options.now ask) }
    ensures takes { IfOk result TakesOptions }
    ensures err { IfErr result (DeclinesOptions name.now options.now) }
{
    let limits = match limits_of(options) {
        Ok(limits) => limits,
        Err(fault) => return Err(NoAsk::Limits(fault)),
    };
    match name {
        "check" => Ok(Ask::Check(limits, check_options(options))),
        "filter" => {
            let filter = filter_options(options);
            match query_of(alloc, &texts_of(options), filter.knows_extensions()) {
                Ok(query) => Ok(Ask::Filter(limits, query, filter)),
                Err(fault) => Err(NoAsk::Query(fault)),
            }
        }
        "info" => Ok(Ask::Info(limits, info_options(options))),
        _ => Err(NoAsk::NoCommand),
    }
}

/// Returns the query that these texts make. It sets ids first, then types, LoDs and the box.
/// `extensions` is whether types of extensions are known.
///
/// # Errors
///
/// The first of these:
///
/// - `Memory` if an allocation for ids failed.
/// - `UnknownTypeName`, or `Memory` if an allocation for a type of an extension failed.
/// - `Memory` if an allocation for LoDs failed.
/// - What is wrong with the box.
///
/// Other types and a box need no allocation.
pub fn query_of(alloc: Global, texts: &QueryTexts, extensions: bool) -> Result<Query, QueryFault>
    ensures ok { IfOk result (λ query. criteria_by extensions (texts_of texts.now) ≡ Ok (criteria query)) }
    ensures err { IfErr result (λ fault. DeclinesTexts extensions (texts_of texts.now) fault) }
{
    let mut query = Query::all(alloc);
    if let Some(ids) = texts.ids {
        query.set_ids(ids, ',')?;
    }
    if let Some(types) = texts.types {
        query.set_types(types, ',', extensions)?;
    }
    if let Some(lods) = texts.lods {
        query.set_lods(lods, ',')?;
    }
    if let Some(bbox) = texts.bbox {
        query.bbox(bbox)?;
    }
    Ok(query)
}

//! The part of a query on types of city objects. Types of the table are flags. Types of extensions
//! have no row, so they are kept as texts.
ghost use Rattle.std.specs.Prelude.{◌≡◌, Some, IfErr, OnOk, OnErr, option_map};
ghost use Rattle.cj_geometry.specs.Meaning.ObjectTypes.{begins_with_plus};
ghost use Rattle.cj_stream.specs.Adding.{counted_memory, is_type, no_types, with_type, with_type_in, DeclinesType};
ghost use Rattle.cj_stream.specs.Query.{types_of};
ghost use Rattle.cj_stream.specs.Sink.{HasRisen};
ghost use Rattle.cj_stream.specs.declared.query.fault.QueryFault.TheVariants.{Memory};

use crate::query::fault::QueryFault;
use crate::query::texts::push_copy;
use cj_budget::{NoMemory, Refusals};
use cj_geometry::ObjectType;
use std::alloc::Global;

/// Types of the table by their numbers, and types of extensions by their texts.
#[derive(Drop)]
pub struct Types {
    pub known: [bool; ObjectType::COUNT],
    pub extensions: Vec<String>,
}

/// Returns whether a name begins as the types of extensions do, with `+` (CityJSON 2.0, section 8).
fn begins_so(name: &str) -> bool
    ensures { result ≡ begins_with_plus name.now }
{
    match name.as_bytes().first() {
        Some(first) => *first == b'+',
        None => false,
    }
}

/// Returns whether a type has this name. `extensions` is whether types of extensions are known:
/// then each name that begins with `+` is one.
pub fn is_type_name(name: &str, extensions: bool) -> bool
    ensures { result ≡ is_type extensions name.now }
{
    ObjectType::named(name).is_some() || (extensions && begins_so(name))
}

impl Types {
    /// Returns no types. It allocates nothing.
    pub fn new(alloc: Global) -> Types
        ensures { types_of result ≡ no_types }
    {
        Types {
            known: [false; ObjectType::COUNT],
            extensions: Vec::new(alloc),
        }
    }

    /// Adds the type with this name.
    fn add(
        &mut self,
        alloc: Global,
        name: &str,
        extensions: bool,
        failed_growths: &mut Refusals,
    ) -> Result<(), QueryFault>
        ensures ok { OnOk result (with_type extensions name.now (types_of self.old) ≡ Some (types_of self.new)) }
        ensures err { OnErr result (types_of self.new ≡ types_of self.old) }
        ensures declined { IfErr result (DeclinesType extensions name.now) }
        ensures cause { IfErr result (λ fault. fault ≡ Memory → HasRisen failed_growths.old failed_growths.new) }
        ensures count { failed_growths.new ≡ counted_memory failed_growths.old result }
    {
        if let Some(object_type) = ObjectType::named(name) {
            self.known[object_type.number() as usize] = true;
            return Ok(());
        }
        if !(extensions && begins_so(name)) {
            return Err(QueryFault::UnknownTypeName);
        }
        match push_copy(alloc, &mut self.extensions, name, failed_growths) {
            Ok(()) => Ok(()),
            Err(NoMemory) => Err(QueryFault::Memory),
        }
    }
}

/// Adds the type with this name to a part. A part that was not set begins empty. After a fault the
/// part is unchanged.
pub fn add_type(
    alloc: Global,
    part: &mut Option<Types>,
    name: &str,
    extensions: bool,
    failed_growths: &mut Refusals,
) -> Result<(), QueryFault>
    ensures ok { OnOk result (with_type_in extensions name.now (option_map types_of part.old)
        ≡ Some (option_map types_of part.new)) }
    ensures err { OnErr result (option_map types_of part.new ≡ option_map types_of part.old) }
    ensures declined { IfErr result (DeclinesType extensions name.now) }
    ensures cause { IfErr result (λ fault. fault ≡ Memory → HasRisen failed_growths.old failed_growths.new) }
    ensures count { failed_growths.new ≡ counted_memory failed_growths.old result }
{
    match part {
        Some(types) => types.add(alloc, name, extensions, failed_growths),
        None => {
            let mut types = Types::new(alloc);
            types.add(alloc, name, extensions, failed_growths)?;
            *part = Some(types);
            Ok(())
        }
    }
}

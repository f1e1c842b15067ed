//! Sets a part of a query by a list: one text, with a separator between each two of its items. A
//! text without a separator has one item, so the empty text has an empty one.
ghost use Rattle.std.specs.Prelude.{◌≡◌, ◌<◌, Some, IfErr, OnOk, OnErr};
ghost use Rattle.cj_stream.specs.Adding.{counted_memory, parted, setting_types, DeclinesTypes};
ghost use Rattle.cj_stream.specs.Query.{criteria, failed_growths_of};
ghost use Rattle.cj_stream.specs.Sink.{HasRisen, counted};
ghost use Rattle.cj_stream.specs.declared.query.fault.QueryFault.TheVariants.{Memory};

use super::{Query, QueryFault};

impl Query {
    /// Sets the part on ids to the items of a list, in place of an earlier part.
    ///
    /// # Errors
    ///
    /// `Memory` if an allocation failed. Then the part has the items before that one. Other parts
    /// stay.
    pub fn set_ids(&mut self, list: &str, separator: char) -> Result<(), QueryFault>
        requires { separator < 128 }
        ensures ok { OnOk result
            (criteria self.new ≡ record (criteria self.old) { ids = Some (parted separator list.now) }) }
        ensures err { OnErr result
            (criteria self.new ≡ record (criteria self.old) { ids = (criteria self.new).ids }) }
        ensures memory { IfErr result (λ fault. fault ≡ Memory) }
        ensures cause { OnErr result (HasRisen (failed_growths_of self.old) (failed_growths_of self.new)) }
        ensures count { failed_growths_of self.new ≡ counted (failed_growths_of self.old) result }
    {
        self.start_ids();
        for id in list.split(separator) {
            self.add_id(id)?;
        }
        self.sort_ids();
        Ok(())
    }

    /// Sets the part on types to those whose names are the items of a list, in place of an earlier
    /// part. With `extensions`, each name that begins with `+` is that of a type, and only such
    /// names need memory.
    ///
    /// # Errors
    ///
    /// The part then has the types before the item with the fault. Other parts stay.
    ///
    /// - `UnknownTypeName` if an item is no type's name.
    /// - `Memory` if an allocation failed.
    pub fn set_types(
        &mut self,
        list: &str,
        separator: char,
        extensions: bool,
    ) -> Result<(), QueryFault>
        requires { separator < 128 }
        ensures ok { OnOk result
            (setting_types extensions (parted separator list.now) (criteria self.old) ≡ Some (criteria self.new)) }
        ensures err { OnErr result
            (criteria self.new ≡ record (criteria self.old) { types = (criteria self.new).types }) }
        ensures declined { IfErr result (DeclinesTypes extensions (parted separator list.now)) }
        ensures cause { IfErr result
            (λ fault. fault ≡ Memory → HasRisen (failed_growths_of self.old) (failed_growths_of self.new)) }
        ensures count { failed_growths_of self.new ≡ counted_memory (failed_growths_of self.old) result }
    {
        self.start_types();
        for name in list.split(separator) {
            self.add_type(name, extensions)?;
        }
        Ok(())
    }

    /// Sets the part on LoDs to the items of a list, in place of an earlier part.
    ///
    /// # Errors
    ///
    /// `Memory` if an allocation failed. Then the part has the items before that one. Other parts
    /// stay.
    pub fn set_lods(&mut self, list: &str, separator: char) -> Result<(), QueryFault>
        requires { separator < 128 }
        ensures ok { OnOk result
            (criteria self.new ≡ record (criteria self.old) { lods = Some (parted separator list.now) }) }
        ensures err { OnErr result
            (criteria self.new ≡ record (criteria self.old) { lods = (criteria self.new).lods }) }
        ensures memory { IfErr result (λ fault. fault ≡ Memory) }
        ensures cause { OnErr result (HasRisen (failed_growths_of self.old) (failed_growths_of self.new)) }
        ensures count { failed_growths_of self.new ≡ counted (failed_growths_of self.old) result }
    {
        self.start_lods();
        for lod in list.split(separator) {
            self.add_lod(lod)?;
        }
        Ok(())
    }
}

//! Which features of a stream are selected.
ghost use Rattle.std.specs.Prelude.{◌≡◌, true, Some, Ok, Err, [], IfErr, OnOk, OnErr, MatchResult};
ghost use Rattle.cj_spans.specs.Meaning.Tree.{Tree};
ghost use Rattle.cj_feature.specs.HeaderView.{header_tree, has_box};
ghost use Rattle.cj_feature.specs.View.{feature_tree};
ghost use Rattle.cj_stream.specs.Meaning.Criteria.{if_set, needs_box, has_id as id_holds};
ghost use Rattle.cj_stream.specs.Usual.{everything};
ghost use Rattle.cj_stream.specs.Meaning.Criteria.{has_type as type_holds, has_lod as lod_holds};
ghost use Rattle.cj_stream.specs.Meaning.Criteria.{is_in as in_box, holds as satisfies};
ghost use Rattle.cj_stream.specs.Adding.{adding_type, counted_memory, no_types, with_id, with_lod, with_box};
ghost use Rattle.cj_stream.specs.Adding.{DeclinesType};
ghost use Rattle.cj_stream.specs.BoxText.{box_text};
ghost use Rattle.cj_stream.specs.Query.{criteria, failed_growths_of};
ghost use Rattle.cj_stream.specs.Sink.{HasRisen, counted};
ghost use Rattle.cj_stream.specs.declared.query.fault.QueryFault.TheVariants.{Memory};

mod bounds;
mod extent;
mod fault;
mod holding;
mod ids;
mod lists;
mod texts;
mod types;

use bounds::Bounds;
use cj_budget::{NoMemory, Refusals};
use cj_feature::{Feature, Header};
pub use fault::QueryFault;
use ids::{Ids, add_id};
use std::alloc::Global;
use texts::add_text;
pub use types::is_type_name;
use types::{Types, add_type};

/// Selects features: a feature is selected if it satisfies each part that is set. The query counts
/// its growths that failed.
#[derive(Drop)]
pub struct Query {
    alloc: Global,
    ids: Option<Ids>,
    types: Option<Types>,
    lods: Option<Vec<String>>,
    bounds: Option<Bounds>,
    failed_growths: Refusals,
}

impl Query {
    /// Returns a query with no part set, so it selects every feature. It allocates nothing.
    #[tactic(auto, unfolding(crate::specs::Query::criteria, crate::specs::Meaning::Criteria::holds))]
    pub fn all(alloc: Global) -> Query
        ensures all { criteria result ≡ everything }
        ensures failed_growths { failed_growths_of result ≡ 0 }
        ensures every { (header t : Tree) → satisfies (criteria result) header t ≡ true }
    {
        Query {
            alloc,
            ids: None,
            types: None,
            lods: None,
            bounds: None,
            failed_growths: Refusals::none(),
        }
    }

    /// Returns whether there is a box. Then the header of a stream is judged for it too.
    #[tactic(auto, unfolding(crate::specs::Query::criteria))]
    pub fn wants_box(&self) -> bool
        ensures { result ≡ needs_box (criteria self.now) }
    {
        self.bounds.is_some()
    }

    /// Sets the part on ids to an empty list, in place of an earlier one. Until an id is added, no
    /// feature satisfies it. It allocates nothing.
    #[tactic(auto, unfolding(crate::specs::Query::criteria))]
    pub fn start_ids(&mut self)
        ensures asks { criteria self.new ≡ record (criteria self.old) { ids = Some [] } }
        ensures failed_growths { failed_growths_of self.new ≡ failed_growths_of self.old }
    {
        self.ids = Some(Ids::new(self.alloc));
    }

    /// Sets the part on types to an empty set, in place of an earlier one. Until a type is added,
    /// no feature satisfies it. It allocates nothing.
    #[tactic(auto, unfolding(crate::specs::Query::criteria))]
    pub fn start_types(&mut self)
        ensures asks { criteria self.new ≡ record (criteria self.old) { types = Some no_types } }
        ensures failed_growths { failed_growths_of self.new ≡ failed_growths_of self.old }
    {
        self.types = Some(Types::new(self.alloc));
    }

    /// Sets the part on LoDs to an empty list, in place of an earlier one. Until an LoD is added,
    /// no feature satisfies it. It allocates nothing.
    #[tactic(auto, unfolding(crate::specs::Query::criteria))]
    pub fn start_lods(&mut self)
        ensures asks { criteria self.new ≡ record (criteria self.old) { lods = Some [] } }
        ensures failed_growths { failed_growths_of self.new ≡ failed_growths_of self.old }
    {
        self.lods = Some(Vec::new(self.alloc));
    }

    /// Adds an id to the part on ids. A feature satisfies the part if its `id` is one of them.
    ///
    /// # Errors
    ///
    /// `Memory` if an allocation failed. The query counts that, and selects the same as before.
    #[tactic(auto, unfolding(crate::specs::Query::criteria))]
    pub fn add_id(&mut self, id: &str) -> Result<(), QueryFault>
        ensures ok { OnOk result (criteria self.new ≡ with_id id.now (criteria self.old)) }
        ensures err { OnErr result (criteria self.new ≡ criteria self.old) }
        ensures memory { IfErr result (λ fault. fault ≡ Memory) }
        ensures cause { OnErr result (HasRisen (failed_growths_of self.old) (failed_growths_of self.new)) }
        ensures count { failed_growths_of self.new ≡ counted (failed_growths_of self.old) result }
    {
        match add_id(self.alloc, &mut self.ids, id, &mut self.failed_growths) {
            Ok(()) => Ok(()),
            Err(NoMemory) => Err(QueryFault::Memory),
        }
    }

    /// Sorts the ids that were added, so that each is found in fewer steps. Call it after the last
    /// of many ids. The query selects the same as before. It allocates nothing. The clauses promise
    /// no order: at most the steps of a search depend on it.
    #[tactic(auto, unfolding(crate::specs::Query::criteria))]
    pub fn sort_ids(&mut self)
        ensures asks { criteria self.new ≡ criteria self.old }
        ensures failed_growths { failed_growths_of self.new ≡ failed_growths_of self.old }
    {
        if let Some(ids) = &mut self.ids {
            ids.sort();
        }
    }

    /// Adds a type to the part on types, by its name (CityJSON 2.0, section 2). A feature satisfies
    /// the part if some city object has one of the types. With `extensions`, each name that begins
    /// with `+` is that of a type (section 8), and only such a name needs memory.
    ///
    /// # Errors
    ///
    /// The query then selects the same as before.
    ///
    /// - `UnknownTypeName` if no type has this name.
    /// - `Memory` if an allocation failed. The query counts that.
    #[tactic(auto, unfolding(crate::specs::Query::criteria))]
    pub fn add_type(&mut self, name: &str, extensions: bool) -> Result<(), QueryFault>
        ensures ok { OnOk result (adding_type extensions name.now (criteria self.old) ≡ Some (criteria self.new)) }
        ensures err { OnErr result (criteria self.new ≡ criteria self.old) }
        ensures declined { IfErr result (DeclinesType extensions name.now) }
        ensures cause { IfErr result
            (λ fault. fault ≡ Memory → HasRisen (failed_growths_of self.old) (failed_growths_of self.new)) }
        ensures count { failed_growths_of self.new ≡ counted_memory (failed_growths_of self.old) result }
    {
        add_type(
            self.alloc,
            &mut self.types,
            name,
            extensions,
            &mut self.failed_growths,
        )
    }

    /// Adds a level of detail to the part on LoDs. A feature satisfies the part if some geometry
    /// has one of them as its `lod` (CityJSON 2.0, section 3).
    ///
    /// # Errors
    ///
    /// `Memory` if an allocation failed. The query counts that, and selects the same as before.
    #[tactic(auto, unfolding(crate::specs::Query::criteria))]
    pub fn add_lod(&mut self, lod: &str) -> Result<(), QueryFault>
        ensures ok { OnOk result (criteria self.new ≡ with_lod lod.now (criteria self.old)) }
        ensures err { OnErr result (criteria self.new ≡ criteria self.old) }
        ensures memory { IfErr result (λ fault. fault ≡ Memory) }
        ensures cause { OnErr result (HasRisen (failed_growths_of self.old) (failed_growths_of self.new)) }
        ensures count { failed_growths_of self.new ≡ counted (failed_growths_of self.old) result }
    {
        match add_text(self.alloc, &mut self.lods, lod, &mut self.failed_growths) {
            Ok(()) => Ok(()),
            Err(NoMemory) => Err(QueryFault::Memory),
        }
    }

    /// Sets the box, in place of an earlier one, from a text `minx,miny,maxx,maxy`. It is four
    /// numbers in the spelling of JSON (RFC 8259, section 6), with commas between them and nothing
    /// else. It allocates nothing.
    ///
    /// # Errors
    ///
    /// The first of these, and then nothing changes:
    ///
    /// - `BadBox` if the text does not have this form.
    /// - `BoxRange` if a number is out of range, no multiple of 10^-18, or 10^18 or more in size.
    /// - `EmptyBox` if a least edge is above the greatest on its axis.
    #[tactic(auto, unfolding(crate::specs::Query::criteria))]
    pub fn bbox(&mut self, text: &str) -> Result<(), QueryFault>
        ensures asks { MatchResult (box_text text.now)
            (λ box. (result ≡ Ok tt) × (criteria self.new ≡ with_box box (criteria self.old)))
            (λ fault. (result ≡ Err fault) × (criteria self.new ≡ criteria self.old)) }
        ensures failed_growths { failed_growths_of self.new ≡ failed_growths_of self.old }
    {
        self.bounds = Some(Bounds::read(text)?);
        Ok(())
    }

    /// Returns whether the query selects a feature, given the header of its stream. It tries the
    /// cheapest part first.
    #[tactic(auto, unfolding(crate::specs::Meaning::Criteria::holds))]
    pub fn holds(&self, feature: &Feature, header: &Header) -> bool
        requires { has_box header.now ≡ needs_box (criteria self.now) }
        ensures { result ≡ satisfies (criteria self.now) (header_tree header.now) (feature_tree feature.now) }
    {
        self.has_id(feature)
            && self.has_type(feature)
            && self.has_lod(feature, header)
            && self.is_in(feature, header)
    }

    /// Returns whether a feature satisfies the part on ids.
    #[tactic(auto, unfolding(crate::specs::Query::criteria))]
    fn has_id(&self, feature: &Feature) -> bool
        ensures { result ≡ if_set (λ ids. id_holds ids (feature_tree feature.now)) (criteria self.now).ids }
    {
        match &self.ids {
            Some(ids) => holding::has_id(ids, feature),
            None => true,
        }
    }

    /// Returns whether a feature satisfies the part on types.
    #[tactic(auto, unfolding(crate::specs::Query::criteria))]
    fn has_type(&self, feature: &Feature) -> bool
        ensures { result ≡ if_set (λ types. type_holds types (feature_tree feature.now)) (criteria self.now).types }
    {
        match &self.types {
            Some(types) => holding::has_type(types, feature),
            None => true,
        }
    }

    /// Returns whether a feature satisfies the part on LoDs.
    #[tactic(auto, unfolding(crate::specs::Query::criteria))]
    fn has_lod(&self, feature: &Feature, header: &Header) -> bool
        ensures { result
            ≡ if_set (λ lods. lod_holds lods (header_tree header.now) (feature_tree feature.now))
            (criteria self.now).lods }
    {
        match &self.lods {
            Some(lods) => holding::has_lod(lods.as_slice(), feature, header),
            None => true,
        }
    }

    /// Returns whether a feature satisfies the part on the box.
    #[tactic(auto, unfolding(crate::specs::Query::criteria))]
    fn is_in(&self, feature: &Feature, header: &Header) -> bool
        requires { has_box header.now ≡ needs_box (criteria self.now) }
        ensures { result
            ≡ if_set (λ box. in_box box (header_tree header.now) (feature_tree feature.now)) (criteria self.now).box }
    {
        match &self.bounds {
            Some(bounds) => extent::is_in(bounds, feature, header),
            None => true,
        }
    }
}

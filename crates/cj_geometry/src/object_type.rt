//! The types of city objects (CityJSON 2.0, section 2).
ghost use Rattle.std.specs.Prelude.{◌≡◌, ◌<◌, true, Some, length, map, option_map};
ghost use Rattle.std.specs.Str.{chars};
ghost use Rattle.cj_spans.specs.Meaning.Tree.{Tree};
ghost use Rattle.cj_spans.specs.Meaning.Parts.{has_text};
ghost use Rattle.cj_spans.specs.View.{tree};
ghost use Rattle.cj_geometry.specs.Meaning.ObjectTypes.{object_types, row_of, is_of_extension as begins_so};
ghost use Rattle.cj_geometry.specs.ObjectTypes.{type_count, row_named, row_at};

use cj_spans::Node;

/// A type of city objects. The types are in the order of the table, first level before second
/// level.
#[derive(Clone, Copy, Debug, PartialEq, Eq)]
pub enum ObjectType {
    Bridge,
    Building,
    CityFurniture,
    CityObjectGroup,
    GenericCityObject,
    LandUse,
    OtherConstruction,
    PlantCover,
    Railway,
    Road,
    SolitaryVegetationObject,
    TINRelief,
    TransportSquare,
    Tunnel,
    WaterBody,
    Waterway,
    BridgeConstructiveElement,
    BridgeFurniture,
    BridgeInstallation,
    BridgePart,
    BridgeRoom,
    BuildingConstructiveElement,
    BuildingFurniture,
    BuildingInstallation,
    BuildingPart,
    BuildingRoom,
    BuildingStorey,
    BuildingUnit,
    TunnelConstructiveElement,
    TunnelFurniture,
    TunnelHollowSpace,
    TunnelInstallation,
    TunnelPart,
}

/// The number of types is that of the rows of the table, in promises and in the program.
#[tactic(auto, unfolding(crate::specs::Meaning::ObjectTypes::object_types))]
pub fn types_are_counted()
    ensures table { type_count ≡ length object_types }
    ensures program { ObjectType.COUNT ≡ type_count }
{}

/// The code point of the sign that begins the types of extensions.
const PLUS: u32 = 43;

/// Returns whether the text of this node begins as the types of extensions do, with `+` (CityJSON
/// 2.0, section 8). No type of the table does.
pub fn is_of_extension(node: Node) -> bool
    ensures { result ≡ begins_so (tree node.entry) }
{
    node.first_code() == Some(PLUS)
}

impl ObjectType {
    /// The number of types.
    pub const COUNT: usize = 33;

    /// Returns all types, in the order of the table.
    #[tactic(auto, unfolding(crate::specs::Meaning::ObjectTypes::object_types))]
    pub fn all() -> [ObjectType; ObjectType::COUNT]
        ensures { map row_at result ≡ object_types }
    {
        [
            ObjectType::Bridge,
            ObjectType::Building,
            ObjectType::CityFurniture,
            ObjectType::CityObjectGroup,
            ObjectType::GenericCityObject,
            ObjectType::LandUse,
            ObjectType::OtherConstruction,
            ObjectType::PlantCover,
            ObjectType::Railway,
            ObjectType::Road,
            ObjectType::SolitaryVegetationObject,
            ObjectType::TINRelief,
            ObjectType::TransportSquare,
            ObjectType::Tunnel,
            ObjectType::WaterBody,
            ObjectType::Waterway,
            ObjectType::BridgeConstructiveElement,
            ObjectType::BridgeFurniture,
            ObjectType::BridgeInstallation,
            ObjectType::BridgePart,
            ObjectType::BridgeRoom,
            ObjectType::BuildingConstructiveElement,
            ObjectType::BuildingFurniture,
            ObjectType::BuildingInstallation,
            ObjectType::BuildingPart,
            ObjectType::BuildingRoom,
            ObjectType::BuildingStorey,
            ObjectType::BuildingUnit,
            ObjectType::TunnelConstructiveElement,
            ObjectType::TunnelFurniture,
            ObjectType::TunnelHollowSpace,
            ObjectType::TunnelInstallation,
            ObjectType::TunnelPart,
        ]
    }

    /// Returns the type whose name is the text of this node. None for any other node. Texts are
    /// compared by code points, with escapes undone (RFC 8259, sections 7 and 8.3).
    ///
    /// Most city objects are buildings and their parts, so it compares these names first.
    #[inline(always)]
    pub fn of(node: Node) -> Option<ObjectType>
        ensures { option_map row_at result ≡ row_of (tree node.entry) }
    {
        if node.text_is(ObjectType::Building.name()) {
            return Some(ObjectType::Building);
        }
        ObjectType::of_other(node)
    }

    /// Does the same, if the name is probably not `Building`.
    #[inline(never)]
    fn of_other(node: Node) -> Option<ObjectType>
        ensures { option_map row_at result ≡ row_of (tree node.entry) }
    {
        if node.text_is(ObjectType::BuildingPart.name()) {
            return Some(ObjectType::BuildingPart);
        }
        for object_type in ObjectType::all() {
            if node.text_is(object_type.name()) {
                return Some(object_type);
            }
        }
        None
    }

    /// Returns the type with this name, as the table spells it. None for any other text.
    pub fn named(name: &str) -> Option<ObjectType>
        ensures { option_map row_at result ≡ row_named name.now }
    {
        for object_type in ObjectType::all() {
            if name == object_type.name() {
                return Some(object_type);
            }
        }
        None
    }

    /// Returns its name.
    #[tactic(auto, unfolding(crate::specs::Meaning::ObjectTypes::object_types))]
    pub fn name(self) -> &'static str
        ensures name { result.now ≡ (row_at self).name }

        // A law of the table: a text with this name is of this type, and of no other.
        ensures only { (t : Tree) → has_text (chars result.now) t ≡ true → row_of t ≡ Some (row_at self) }
    {
        match self {
            ObjectType::Bridge => "Bridge",
            ObjectType::Building => "Building",
            ObjectType::CityFurniture => "CityFurniture",
            ObjectType::CityObjectGroup => "CityObjectGroup",
            ObjectType::GenericCityObject => "GenericCityObject",
            ObjectType::LandUse => "LandUse",
            ObjectType::OtherConstruction => "OtherConstruction",
            ObjectType::PlantCover => "PlantCover",
            ObjectType::Railway => "Railway",
            ObjectType::Road => "Road",
            ObjectType::SolitaryVegetationObject => "SolitaryVegetationObject",
            ObjectType::TINRelief => "TINRelief",
            ObjectType::TransportSquare => "TransportSquare",
            ObjectType::Tunnel => "Tunnel",
            ObjectType::WaterBody => "WaterBody",
            ObjectType::Waterway => "Waterway",
            ObjectType::BridgeConstructiveElement => "BridgeConstructiveElement",
            ObjectType::BridgeFurniture => "BridgeFurniture",
            ObjectType::BridgeInstallation => "BridgeInstallation",
            ObjectType::BridgePart => "BridgePart",
            ObjectType::BridgeRoom => "BridgeRoom",
            ObjectType::BuildingConstructiveElement => "BuildingConstructiveElement",
            ObjectType::BuildingFurniture => "BuildingFurniture",
            ObjectType::BuildingInstallation => "BuildingInstallation",
            ObjectType::BuildingPart => "BuildingPart",
            ObjectType::BuildingRoom => "BuildingRoom",
            ObjectType::BuildingStorey => "BuildingStorey",
            ObjectType::BuildingUnit => "BuildingUnit",
            ObjectType::TunnelConstructiveElement => "TunnelConstructiveElement",
            ObjectType::TunnelFurniture => "TunnelFurniture",
            ObjectType::TunnelHollowSpace => "TunnelHollowSpace",
            ObjectType::TunnelInstallation => "TunnelInstallation",
            ObjectType::TunnelPart => "TunnelPart",
        }
    }

    /// Returns whether it is of the second level. Such a city object needs a parent.
    pub fn is_second_level(self) -> bool
        ensures { result ≡ (row_at self).is_second }
    {
        // the first of the second level
        self.number() >= ObjectType::BridgeConstructiveElement.number()
    }

    /// Returns its number, from 0 to 32, in the order of the table.
    #[tactic(auto, using(crate::proofs::Values::type_facts))]
    pub fn number(self) -> u8
        ensures number { result ≡ (row_at self).number }
        ensures below { result < ObjectType.COUNT }
    {
        self as u8
    }
}

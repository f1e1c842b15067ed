//! The rules on worked features and headers. Each contract is a theorem in which nothing runs.
ghost use Rattle.std.specs.Prelude.{◌≡◌, ◌∷◌, [], false, true, Some, codes};
ghost use Rattle.cj_spans.specs.declared.reason.Reason.TheVariants.{MissingMember, DuplicateName, WrongKind, WrongType};
ghost use Rattle.cj_spans.specs.declared.reason.Reason.TheVariants.{WrongVersion, NotEmpty, NotThree, IdNotFound};
ghost use Rattle.cj_spans.specs.declared.reason.Reason.TheVariants.{ChildNotFound, LinkNotMutual, NoParent, NotReached};
ghost use Rattle.cj_spans.specs.declared.reason.Reason.TheVariants.{UnknownObjectType};
ghost use Rattle.cj_spans.specs.Meaning.Finding.{least, found_at};
ghost use Rattle.cj_spans.specs.Forest.{forest};
ghost use Rattle.cj_spans.specs.Preorder.{preorder};
ghost use Rattle.cj_feature.specs.Meaning.Header.{header};
ghost use Rattle.cj_feature.specs.Meaning.Feature.{feature};
ghost use Rattle.cj_feature.specs.Examples.{bare, itself, lost_child, unlisted_part, unlisted_parent, lost_parent};
ghost use Rattle.cj_feature.specs.Examples.{part_alone, part_of_other, part_of_none, part_of_number, group};
ghost use Rattle.cj_feature.specs.Examples.{unlisted_member, unlisted_group, group_of_other, part_of_no_object};
ghost use Rattle.cj_feature.specs.Examples.{no_objects, doubled, escaped, same_by_escape, no_object, child_no_object};
ghost use Rattle.cj_feature.specs.Examples.{other_id, unread_names, null_children, chain, part_apart, main_part};
ghost use Rattle.cj_feature.specs.Examples.{number_apart, plain_header, plain_header_line, other_type, other_type_line};
ghost use Rattle.cj_feature.specs.Examples.{shed, extension, extension_by_escape, extension_with_parent};
ghost use Rattle.cj_feature.specs.Examples.{extension_with_child};
ghost use Rattle.cj_feature.specs.Examples.{other_version, other_version_line, more_digits, more_digits_line, no_scale};
ghost use Rattle.cj_feature.specs.Examples.{no_scale_line, two_scales, two_scales_line, with_objects};
ghost use Rattle.cj_feature.specs.Examples.{with_objects_line, with_vertices, with_vertices_line};

/// A city object may list itself, as a child and as a parent.
pub fn children_and_parents_of_itself()
    ensures { feature bare itself.tree false false ≡ [] }
{}

/// Each child is in the feature, and lists the city object as a parent.
pub fn children()
    ensures lost { feature bare lost_child.tree false false ≡ found_at 85 ChildNotFound ∷ [] }
    ensures unlisted { feature bare unlisted_parent.tree false false ≡ found_at 85 LinkNotMutual ∷ [] }
    ensures null { feature bare null_children.tree false false ≡ found_at 84 WrongKind ∷ [] }
{}

/// Each parent in the feature lists the city object as a child.
pub fn parents()
    ensures lost { feature bare lost_parent.tree false false ≡ [] }
    ensures unlisted { feature bare unlisted_part.tree false false ≡ found_at 112 LinkNotMutual ∷ [] }
{}

/// A city object of the second level needs a parent in the feature.
pub fn parts()
    ensures alone { feature bare part_alone.tree false false ≡ found_at 54 MissingMember ∷ [] }
    ensures other { feature bare part_of_other.tree false false ≡ found_at 54 NoParent ∷ [] }
    ensures none { feature bare part_of_none.tree false false ≡ found_at 54 NoParent ∷ [] }
    ensures number { least None (feature bare part_of_number.tree false false) ≡ Some (found_at 54 NoParent) }
{}

/// The children of a group may be anywhere. Its members list it as any other parent, and its own
/// parents list it as any other child.
pub fn groups()
    ensures group { feature bare group.tree false false ≡ [] }
    ensures unlisted { feature bare unlisted_member.tree false false ≡ found_at 115 LinkNotMutual ∷ [] }
    ensures parent { feature bare unlisted_group.tree false false ≡ found_at 91 LinkNotMutual ∷ [] }
    ensures lost_parent { feature bare group_of_other.tree false false ≡ [] }
{}

/// A type that begins with `+` is unknown, or it is known and has no level: no parent needs to be
/// in the feature. Its children do.
pub fn types_of_extensions()
    ensures unknown { feature bare extension.tree false false ≡ found_at 62 UnknownObjectType ∷ [] }
    ensures known { feature bare extension.tree false true ≡ [] }
    ensures escaped { feature bare extension_by_escape.tree false true ≡ [] }
    ensures parent { feature bare extension_with_parent.tree false true ≡ [] }
    ensures child { feature bare extension_with_child.tree false true ≡ found_at 82 ChildNotFound ∷ [] }
    ensures other { feature bare shed.tree false true ≡ found_at 62 UnknownObjectType ∷ [] }
{}

/// Links are between names, in any spelling. If a name is repeated, it does not matter which city
/// object has the link.
pub fn names_of_city_objects()
    ensures doubled { feature bare doubled.tree false false ≡ found_at 74 DuplicateName ∷ [] }
    ensures escaped { feature bare escaped.tree false false ≡ [] }
    ensures same { feature bare same_by_escape.tree false false ≡ found_at 74 DuplicateName ∷ [] }
    ensures unread { feature bare unread_names.tree false false ≡ [] }
{}

/// A name is an id in the feature even if its value is no city object.
pub fn values_that_are_no_city_objects()
    ensures alone { feature bare no_object.tree false false ≡ found_at 54 WrongKind ∷ [] }
    ensures child { feature bare child_no_object.tree false false ≡ found_at 95 WrongKind
        ∷ found_at 85 LinkNotMutual ∷ [] }
    ensures least { least None (feature bare child_no_object.tree false false) ≡ Some (found_at 85 LinkNotMutual) }
    ensures parent { feature bare part_of_no_object.tree false false ≡ found_at 98 WrongKind
        ∷ found_at 88 LinkNotMutual ∷ [] }
{}

/// The id of the feature is the name of a city object.
pub fn an_id_of_no_city_object()
    ensures other { feature bare other_id.tree false false ≡ found_at 31 IdNotFound ∷ [] }
    ensures none { feature bare no_objects.tree false false ≡ found_at 31 IdNotFound ∷ [] }
{}

/// If each city object must be reached from the main one, all that are not have a finding. It does
/// not matter what level they have, where they are, and what the main one is. Their order does not
/// matter.
pub fn city_objects_that_are_not_reached()
    ensures chain { feature bare chain.tree true false ≡ [] }
    ensures apart { feature bare part_apart.tree true false ≡ found_at 78 NotReached ∷ found_at 122 NotReached ∷ [] }
    ensures main_part { feature bare main_part.tree true false ≡ found_at 98 NotReached ∷ [] }
    ensures unasked { feature bare part_apart.tree false false ≡ [] }
    ensures unasked_part { feature bare main_part.tree false false ≡ [] }
{}

/// A value that is no object is not reached either. The finding of its kind comes first, at the
/// same byte.
pub fn a_number_that_is_not_reached()
    ensures all { feature bare number_apart.tree true false ≡ found_at 78 WrongKind ∷ found_at 78 NotReached ∷ [] }
    ensures least { least None (feature bare number_apart.tree true false) ≡ Some (found_at 78 WrongKind) }
{}

/// A header has its type and its version. The digits of the version must be exact.
pub fn types_and_versions()
    ensures plain { header false plain_header ≡ [] }
    ensures other_type { header false other_type ≡ found_at 8 WrongType ∷ [] }
    ensures other_version { header false other_version ≡ found_at 29 WrongVersion ∷ [] }
    ensures more_digits { header false more_digits ≡ found_at 29 WrongVersion ∷ [] }
{}

/// A transform has two lists of three numbers, and a header has no city objects and no vertices.
pub fn parts_of_a_header()
    ensures no_scale { header false no_scale ≡ found_at 47 MissingMember ∷ [] }
    ensures two_scales { header false two_scales ≡ found_at 56 NotThree ∷ [] }
    ensures with_objects { header false with_objects ≡ found_at 99 NotEmpty ∷ [] }
    ensures with_vertices { header false with_vertices ≡ found_at 113 NotEmpty ∷ [] }
{}

/// A header is no feature, and a feature is no header.
pub fn one_taken_for_the_other()
    ensures feature { least None (header false itself.tree) ≡ Some (found_at 0 MissingMember) }
    ensures header { least None (feature bare plain_header false false) ≡ Some (found_at 0 MissingMember) }
{}

/// The trees of features are those that their lines show.
pub fn trees_of_features()
    ensures itself { forest itself.line (preorder itself.tree) ≡ itself.tree ∷ [] }
    ensures lost_child { forest lost_child.line (preorder lost_child.tree) ≡ lost_child.tree ∷ [] }
    ensures unlisted_parent { forest unlisted_parent.line (preorder unlisted_parent.tree) ≡ unlisted_parent.tree ∷ [] }
    ensures null_children { forest null_children.line (preorder null_children.tree) ≡ null_children.tree ∷ [] }
    ensures lost_parent { forest lost_parent.line (preorder lost_parent.tree) ≡ lost_parent.tree ∷ [] }
    ensures unlisted_part { forest unlisted_part.line (preorder unlisted_part.tree) ≡ unlisted_part.tree ∷ [] }
    ensures part_alone { forest part_alone.line (preorder part_alone.tree) ≡ part_alone.tree ∷ [] }
    ensures part_of_other { forest part_of_other.line (preorder part_of_other.tree) ≡ part_of_other.tree ∷ [] }
    ensures part_of_none { forest part_of_none.line (preorder part_of_none.tree) ≡ part_of_none.tree ∷ [] }
    ensures part_of_number { forest part_of_number.line (preorder part_of_number.tree) ≡ part_of_number.tree ∷ [] }
    ensures group { forest group.line (preorder group.tree) ≡ group.tree ∷ [] }
    ensures unlisted_member { forest unlisted_member.line (preorder unlisted_member.tree) ≡ unlisted_member.tree ∷ [] }
    ensures doubled { forest doubled.line (preorder doubled.tree) ≡ doubled.tree ∷ [] }
    ensures escaped { forest escaped.line (preorder escaped.tree) ≡ escaped.tree ∷ [] }
    ensures same_by_escape { forest same_by_escape.line (preorder same_by_escape.tree) ≡ same_by_escape.tree ∷ [] }
    ensures unread_names { forest unread_names.line (preorder unread_names.tree) ≡ unread_names.tree ∷ [] }
    ensures no_object { forest no_object.line (preorder no_object.tree) ≡ no_object.tree ∷ [] }
    ensures child_no_object { forest child_no_object.line (preorder child_no_object.tree) ≡ child_no_object.tree ∷ [] }
    ensures other_id { forest other_id.line (preorder other_id.tree) ≡ other_id.tree ∷ [] }
    ensures unlisted_group { forest unlisted_group.line (preorder unlisted_group.tree) ≡ unlisted_group.tree ∷ [] }
    ensures group_of_other { forest group_of_other.line (preorder group_of_other.tree) ≡ group_of_other.tree ∷ [] }
    ensures part_of_no_object { forest part_of_no_object.line (preorder part_of_no_object.tree)
        ≡ part_of_no_object.tree ∷ [] }
    ensures no_objects { forest no_objects.line (preorder no_objects.tree) ≡ no_objects.tree ∷ [] }
    ensures shed { forest shed.line (preorder shed.tree) ≡ shed.tree ∷ [] }
    ensures extension { forest extension.line (preorder extension.tree) ≡ extension.tree ∷ [] }
    ensures by_escape { forest extension_by_escape.line (preorder extension_by_escape.tree)
        ≡ extension_by_escape.tree ∷ [] }
    ensures with_parent { forest extension_with_parent.line (preorder extension_with_parent.tree)
        ≡ extension_with_parent.tree ∷ [] }
    ensures with_child { forest extension_with_child.line (preorder extension_with_child.tree)
        ≡ extension_with_child.tree ∷ [] }
    ensures chain { forest chain.line (preorder chain.tree) ≡ chain.tree ∷ [] }
    ensures part_apart { forest part_apart.line (preorder part_apart.tree) ≡ part_apart.tree ∷ [] }
    ensures main_part { forest main_part.line (preorder main_part.tree) ≡ main_part.tree ∷ [] }
    ensures number_apart { forest number_apart.line (preorder number_apart.tree) ≡ number_apart.tree ∷ [] }
{}

/// The same is true of the trees of headers.
pub fn trees_of_headers()
    ensures bare { forest (codes "{}") (preorder bare) ≡ bare ∷ [] }
    ensures plain { forest plain_header_line (preorder plain_header) ≡ plain_header ∷ [] }
    ensures other_type { forest other_type_line (preorder other_type) ≡ other_type ∷ [] }
    ensures other_version { forest other_version_line (preorder other_version) ≡ other_version ∷ [] }
    ensures more_digits { forest more_digits_line (preorder more_digits) ≡ more_digits ∷ [] }
    ensures no_scale { forest no_scale_line (preorder no_scale) ≡ no_scale ∷ [] }
    ensures two_scales { forest two_scales_line (preorder two_scales) ≡ two_scales ∷ [] }
    ensures with_objects { forest with_objects_line (preorder with_objects) ≡ with_objects ∷ [] }
    ensures with_vertices { forest with_vertices_line (preorder with_vertices) ≡ with_vertices ∷ [] }
{}

//! The rules on worked geometries, and the tables of types. Each contract is a theorem in which
//! nothing runs.
ghost use Rattle.std.specs.Prelude.{◌≡◌, ◌<◌, ◌∷◌, [], ℕ, length, nat_le, true, codes, Some, None};
ghost use Rattle.std.specs.Str.{chars};
ghost use Rattle.cj_spans.specs.Meaning.Parts.{has_text};
ghost use Rattle.cj_spans.specs.declared.reason.Reason.TheVariants.{MissingMember, DuplicateName, WrongKind};
ghost use Rattle.cj_spans.specs.declared.reason.Reason.TheVariants.{UnknownGeometryType, VertexIndex, SemanticsCount};
ghost use Rattle.cj_spans.specs.declared.reason.Reason.TheVariants.{SemanticsIndex, TemplateIndex, BadInstance};
ghost use Rattle.cj_spans.specs.Meaning.Finding.{least, found_at};
ghost use Rattle.cj_spans.specs.Meaning.Tree.{Tree, scalar};
ghost use Rattle.cj_spans.specs.Meaning.Json.{atom_at};
ghost use Rattle.cj_spans.specs.declared.token.Kind.TheVariants.{Text};
ghost use Rattle.cj_spans.specs.Forest.{forest};
ghost use Rattle.cj_spans.specs.Preorder.{preorder};
ghost use Rattle.cj_geometry.specs.Meaning.Geometry.{geometry, listed, empty, itself};
ghost use Rattle.cj_geometry.specs.Meaning.Lod.{lod};
ghost use Rattle.cj_geometry.specs.Meaning.ObjectTypes.{object_types, row_of};
ghost use Rattle.cj_geometry.specs.ObjectTypes.{row_numbered, number_of, row_at};
ghost use Rattle.cj_geometry.specs.declared.object_type.ObjectType.{ObjectType};
ghost use Rattle.cj_geometry.specs.Meaning.Table.{parts, instance, table, form_of};
ghost use Rattle.cj_geometry_tests.specs.Examples.{points_line, points, three, empty_object, cone_line, cone, instance_line};
ghost use Rattle.cj_geometry_tests.specs.Examples.{bare_instance, templates_line, templates, placed_line, sixteen, fifteen};
ghost use Rattle.cj_geometry_tests.specs.Examples.{seventeen, complete_instance, short_instance, long_instance};
ghost use Rattle.cj_geometry_tests.specs.Examples.{negative_instance, past_instance, doubled_line, doubled, solid_line};
ghost use Rattle.cj_geometry_tests.specs.Examples.{null_whole, null_shell, null_surface, no_shell, one_surface};
ghost use Rattle.cj_geometry_tests.specs.Examples.{past_surfaces, string, HaveTheirForms, HasNoName};

/// An index is below the number of vertices, if that is known.
pub fn two_points_beside_one_vertex()
    ensures one { least None (geometry (Some 1) empty points) ≡ Some (found_at 47 VertexIndex) }
    ensures unknown { least None (geometry None empty points) ≡ None }
{}

/// A number is no geometry.
pub fn a_number()
    ensures { least None (geometry (Some 1) empty three) ≡ Some (found_at 0 WrongKind) }
{}

/// A geometry needs a type.
pub fn no_type()
    ensures { least None (geometry (Some 1) empty empty_object) ≡ Some (found_at 0 MissingMember) }
{}

/// The type is one of the table.
pub fn no_type_of_the_table()
    ensures { least None (geometry (Some 1) empty cone) ≡ Some (found_at 8 UnknownGeometryType) }
{}

/// An instance needs its members, and a template cannot be an instance.
pub fn an_instance_of_nothing()
    ensures instance { least None (geometry (Some 1) empty bare_instance) ≡ Some (found_at 0 MissingMember) }
    ensures template { least None (geometry (Some 1) itself bare_instance) ≡ Some (found_at 8 BadInstance) }
{}

/// A complete instance: a template of the list, one vertex and 16 numbers.
pub fn a_complete_instance()
    ensures { least None (geometry (Some 1) (listed templates) complete_instance) ≡ None }
{}

/// The matrix has exactly 16 numbers, the vertex is not below 0, and the template is one of the
/// list.
pub fn what_an_instance_needs()
    ensures short { least None (geometry (Some 1) (listed templates) short_instance) ≡ Some (found_at 80 BadInstance) }
    ensures long { least None (geometry (Some 1) (listed templates) long_instance) ≡ Some (found_at 80 BadInstance) }
    ensures negative { least None (geometry (Some 1) (listed templates) negative_instance)
        ≡ Some (found_at 54 VertexIndex) }
    ensures past { least None (geometry (Some 1) (listed templates) past_instance) ≡ Some (found_at 38 TemplateIndex) }
    ensures none { least None (geometry (Some 1) empty complete_instance) ≡ Some (found_at 38 TemplateIndex) }
    ensures template { least None (geometry (Some 1) itself complete_instance) ≡ Some (found_at 8 BadInstance) }
{}

/// Two rules have a finding, and the least one is that of the second.
pub fn a_doubled_name_and_an_unknown_type()
    ensures all { geometry (Some 1) empty doubled ≡ found_at 15 DuplicateName ∷ found_at 8 UnknownGeometryType ∷ [] }
    ensures least { least None (geometry (Some 1) empty doubled) ≡ Some (found_at 8 UnknownGeometryType) }
{}

/// Semantic values of a solid may be null at each level.
pub fn null_at_each_level()
    ensures whole { least None (geometry (Some 3) empty null_whole) ≡ None }
    ensures shell { least None (geometry (Some 3) empty null_shell) ≡ None }
    ensures surface { least None (geometry (Some 3) empty null_surface) ≡ None }
{}

/// There are as many values as parts.
pub fn as_many_values_as_parts()
    ensures shells { least None (geometry (Some 3) empty no_shell) ≡ Some (found_at 121 SemanticsCount) }
    ensures surfaces { least None (geometry (Some 3) empty one_surface) ≡ Some (found_at 122 SemanticsCount) }
{}

/// An index is below the number of surfaces.
pub fn an_index_past_the_surfaces()
    ensures { least None (geometry (Some 3) empty past_surfaces) ≡ Some (found_at 125 SemanticsIndex) }
{}

/// The trees are those that their lines show.
pub fn trees_of_their_lines()
    ensures points { forest points_line (preorder points) ≡ points ∷ [] }
    ensures three { forest (codes "3") (preorder three) ≡ three ∷ [] }
    ensures nothing { forest (codes "{}") (preorder empty_object) ≡ empty_object ∷ [] }
    ensures cone { forest cone_line (preorder cone) ≡ cone ∷ [] }
    ensures instance { forest instance_line (preorder bare_instance) ≡ bare_instance ∷ [] }
    ensures doubled { forest doubled_line (preorder doubled) ≡ doubled ∷ [] }
{}

/// The same is true of the instances and their list.
pub fn instances_of_their_lines()
    ensures templates { forest templates_line (preorder templates) ≡ templates ∷ [] }
    ensures complete { forest (placed_line (codes "0") (codes "0") sixteen) (preorder complete_instance)
        ≡ complete_instance ∷ [] }
    ensures short { forest (placed_line (codes "0") (codes "0") fifteen) (preorder short_instance)
        ≡ short_instance ∷ [] }
    ensures long { forest (placed_line (codes "0") (codes "0") seventeen) (preorder long_instance)
        ≡ long_instance ∷ [] }
    ensures negative { forest (placed_line (codes "0") (codes "-1") sixteen) (preorder negative_instance)
        ≡ negative_instance ∷ [] }
    ensures past { forest (placed_line (codes "1") (codes "0") sixteen) (preorder past_instance) ≡ past_instance ∷ [] }
{}

/// The same is true of the solid.
pub fn solids_of_their_lines()
    ensures null_whole { forest (solid_line (codes "null")) (preorder null_whole) ≡ null_whole ∷ [] }
    ensures null_shell { forest (solid_line (codes "[null]")) (preorder null_shell) ≡ null_shell ∷ [] }
    ensures null_surface { forest (solid_line (codes "[[0,null]]")) (preorder null_surface) ≡ null_surface ∷ [] }
    ensures no_shell { forest (solid_line (codes "[]")) (preorder no_shell) ≡ no_shell ∷ [] }
    ensures one_surface { forest (solid_line (codes "[[0]]")) (preorder one_surface) ≡ one_surface ∷ [] }
    ensures past_surfaces { forest (solid_line (codes "[[0,1]]")) (preorder past_surfaces) ≡ past_surfaces ∷ [] }
{}

/// The level of detail of a geometry is its own. An instance of nothing has none.
pub fn levels_of_detail()
    ensures own { lod empty points ≡ Some (scalar Text (atom_at points_line 27 30)) }
    ensures none { lod empty cone ≡ None }
    ensures instance { lod empty bare_instance ≡ None }
{}

/// The level of detail of an instance is that of its template, if the list has it.
pub fn levels_of_detail_of_instances()
    ensures listed { lod (listed templates) complete_instance ≡ Some (scalar Text (atom_at templates_line 8 11)) }
    ensures past { lod (listed templates) past_instance ≡ None }
    ensures none { lod empty complete_instance ≡ None }
{}

/// The table as a whole: no row hides another, and other values have no form.
pub fn forms_of_the_table()
    ensures named { HaveTheirForms table }
    ensures other { (t : Tree) → HasNoName table t → form_of t ≡ None }
{}

/// Each type of the table has its form.
pub fn forms_of_the_types()
    ensures points { form_of (string (codes "\"MultiPoint\"")) ≡ Some (parts 1 None) }
    ensures lines { form_of (string (codes "\"MultiLineString\"")) ≡ Some (parts 2 None) }
    ensures surfaces { form_of (string (codes "\"MultiSurface\"")) ≡ Some (parts 3 (Some 1)) }
    ensures surface { form_of (string (codes "\"CompositeSurface\"")) ≡ Some (parts 3 (Some 1)) }
    ensures solid { form_of (string (codes "\"Solid\"")) ≡ Some (parts 4 (Some 2)) }
    ensures solids { form_of (string (codes "\"MultiSolid\"")) ≡ Some (parts 5 (Some 3)) }
    ensures composite { form_of (string (codes "\"CompositeSolid\"")) ≡ Some (parts 5 (Some 3)) }
    ensures instance { form_of (string (codes "\"GeometryInstance\"")) ≡ Some instance }
    ensures escaped { form_of (string (codes "\"\\u0053olid\"")) ≡ Some (parts 4 (Some 2)) }
{}

/// Other strings and other values have none.
pub fn no_form_of_other_values()
    ensures other { form_of (string (codes "\"Cone\"")) ≡ None }
    ensures small { form_of (string (codes "\"solid\"")) ≡ None }
    ensures longer { form_of (string (codes "\"Solids\"")) ≡ None }
    ensures empty { form_of (string (codes "\"\"")) ≡ None }
    ensures number { form_of three ≡ None }
{}

/// The types of city objects: there are 33, each at the place of its number, with no name twice.
/// Those of the second level begin at 16. Different types have different rows.
pub fn table_of_object_types()
    ensures count { length object_types ≡ 33 }
    ensures number { (n : ℕ) → n < 33 → (row_numbered n).number ≡ n }
    ensures level { (n : ℕ) → n < 33 → (row_numbered n).is_second ≡ nat_le 16 n }
    ensures name { (n : ℕ) (t : Tree) → n < 33 → has_text (chars (row_numbered n).name) t ≡ true
        → row_of t ≡ Some (row_numbered n) }
    ensures types { (o : ObjectType) → (row_at o).number ≡ number_of o }
    ensures apart { (o p : ObjectType) → row_at o ≡ row_at p → o ≡ p }
{}

//! The templates that a geometry may name (CityJSON 2.0, section 3).
ghost use Rattle.std.specs.Prelude.{◌≡◌, Some, None, length};
ghost use Rattle.cj_spans.specs.Meaning.Parts.{items_of};
ghost use Rattle.cj_spans.specs.View.{tree, line_of, source_of};
ghost use Rattle.cj_geometry.specs.ListSteps.{AreStepsOf};

use crate::rule::count_items;
use crate::steps::Steps;
use cj_spans::Node;

/// A list of templates. It is counted once, and not for each instance.
#[derive(Clone, Copy)]
struct List<'a> {
    node: Node<'a>,
    count: u64,
    ghost counted: { count ≡ length (items_of (tree node)) },
}

/// A list of templates with the steps of an earlier walk.
#[derive(Clone, Copy)]
struct SteppedList<'a> {
    node: Node<'a>,
    steps: &'a Steps,
    ghost known: { AreStepsOf (items_of (tree node)) steps.now },
}

/// The templates: those of a list, or none, or the geometry is a template itself.
#[derive(Clone, Copy)]
enum Choice<'a> {
    Listed(List<'a>),
    Stepped(SteppedList<'a>),
    Empty,
    Itself,
}

/// The templates that a geometry may name.
#[derive(Clone, Copy)]
pub struct Templates<'a> {
    choice: Choice<'a>,
}

impl<'a> Templates<'a> {
    ghost use Rattle.std.specs.Prelude.{option_map, nat_eq};
    ghost use Rattle.cj_spans.specs.declared.token.Kind.TheVariants.{Array};
    ghost use Rattle.cj_spans.specs.Meaning.Parts.{kind_of, items_if};
    ghost use Rattle.cj_geometry.specs.Meaning.Geometry.{listed, empty, itself, template_count, is_itself};
    ghost use Rattle.cj_geometry.specs.Given.{list_of, given, given_line, given_source};

    /// Returns the templates of the header's list, which is an array.
    pub fn list(node: Node<'a>) -> Templates<'a>
        requires { kind_of (tree node) ≡ Array }
        ensures given { given result ≡ listed (tree node.entry) }
        ensures line { given_line result ≡ Some (line_of node.entry) }
        ensures source { given_source result ≡ Some (source_of node.entry) }
    {
        Templates {
            choice: Choice::Listed(List {
                node,
                count: count_items(node),
            }),
        }
    }

    /// Returns the templates of the header's list, which is an array with known steps. It needs no
    /// other walk.
    pub fn stepped(node: Node<'a>, steps: &'a Steps) -> Templates<'a>
        requires list { kind_of (tree node) ≡ Array }
        requires steps { AreStepsOf (items_of (tree node)) steps.now }
        ensures given { given result ≡ listed (tree node.entry) }
        ensures line { given_line result ≡ Some (line_of node.entry) }
        ensures source { given_source result ≡ Some (source_of node.entry) }
    {
        Templates {
            choice: Choice::Stepped(SteppedList { node, steps }),
        }
    }

    /// Returns no templates.
    pub fn empty() -> Templates<'a>
        ensures given { given result ≡ empty }
        ensures line { given_line result ≡ None }
        ensures source { given_source result ≡ None }
    {
        Templates {
            choice: Choice::Empty,
        }
    }

    /// Returns the mark that the geometry is a template itself.
    pub fn template() -> Templates<'a>
        ensures given { given result ≡ itself }
        ensures line { given_line result ≡ None }
        ensures source { given_source result ≡ None }
    {
        Templates {
            choice: Choice::Itself,
        }
    }

    /// Returns whether there is no template.
    pub fn is_empty(self) -> bool
        ensures { result ≡ nat_eq (template_count (given self.entry)) 0 }
    {
        self.count() == 0
    }

    /// Returns the list, if there is one.
    pub(crate) fn nodes(self) -> Option<Node<'a>>
        ensures list { option_map tree result ≡ list_of (given self.entry) }
        ensures line { option_map line_of result ≡ given_line self.entry }
        ensures source { option_map source_of result ≡ given_source self.entry }
    {
        match self.choice {
            Choice::Listed(list) => Some(list.node),
            Choice::Stepped(list) => Some(list.node),
            Choice::Empty | Choice::Itself => None,
        }
    }

    /// Returns the number of templates.
    pub(crate) fn count(self) -> u64
        ensures { result ≡ template_count (given self.entry) }
    {
        match self.choice {
            Choice::Listed(list) => list.count,
            Choice::Stepped(list) => list.steps.count(),
            Choice::Empty | Choice::Itself => 0,
        }
    }

    /// Returns whether the geometry is a template itself.
    pub(crate) fn is_template(self) -> bool
        ensures { result ≡ is_itself (given self.entry) }
    {
        match self.choice {
            Choice::Itself => true,
            Choice::Listed(_) | Choice::Stepped(_) | Choice::Empty => false,
        }
    }

    /// Returns the steps of the list, by a walk over it if they are not known. Without a list they
    /// are those of an empty one.
    pub(crate) fn steps(self) -> Steps
        ensures { AreStepsOf (items_if (list_of (given self.entry))) result }
    {
        match self.choice {
            Choice::Stepped(list) => *list.steps,
            Choice::Listed(list) => Steps::of(list.node),
            Choice::Empty | Choice::Itself => Steps::none(),
        }
    }
}

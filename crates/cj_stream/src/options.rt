//! How a stream is read and judged, in addition to the limits and the query.
ghost use Rattle.std.specs.Prelude.{◌≡◌};
ghost use Rattle.cj_stream.specs.Usual.{usual_options};

use std::marker::Model;

/// Options of how a stream is read and judged.
///
/// By default the first invalid line is the end, and the features that the query selects are kept.
/// A method sets the option of its name: `Options::new().keep_going(true)`.
#[derive(Clone, Copy, Debug, PartialEq, Eq)]
pub struct Options {
    keep_going: bool,
    tree: bool,
    exclude: bool,
    extensions: bool,
}

impl Model for Options {
    ghost use Rattle.cj_stream.specs.Meaning.Rules.{OptionSet};

    ghost Value = { OptionSet };

    ghost view = { λ o. record {
      keep_going = o.keep_going;
      all_reached = o.tree;
      exclude = o.exclude;
      extensions = o.extensions;
    } };

    ghost inverse = { λ o. record {
      keep_going = o.keep_going;
      tree = o.all_reached;
      exclude = o.exclude;
      extensions = o.extensions;
    } };
}

impl Options {
    /// Returns the defaults: no option is set.
    pub fn new() -> Options
        ensures { result ≡ usual_options }
    {
        Options {
            keep_going: false,
            tree: false,
            exclude: false,
            extensions: false,
        }
    }

    /// Sets whether reading goes on after an invalid line. Each invalid line is then reported. An
    /// invalid first line is always the end.
    pub fn keep_going(self, on: bool) -> Options
        ensures { result ≡ record self { keep_going = on } }
    {
        Options {
            keep_going: on,
            ..self
        }
    }

    /// Sets whether each city object of a feature must be reached from the main city object,
    /// through lists of `children`. The feature's `id` names the main city object.
    pub fn tree(self, on: bool) -> Options
        ensures { result ≡ record self { all_reached = on } }
    {
        Options { tree: on, ..self }
    }

    /// Sets whether the features that the query selects are left out, and the others are kept. With
    /// a query that has no part set, only the header is kept.
    pub fn exclude(self, on: bool) -> Options
        ensures { result ≡ record self { exclude = on } }
    {
        Options {
            exclude: on,
            ..self
        }
    }

    /// Sets whether types of extensions are known: those that begin with `+`. They have no level,
    /// so such a city object needs no parent.
    pub fn extensions(self, on: bool) -> Options
        ensures { result ≡ record self { extensions = on } }
    {
        Options {
            extensions: on,
            ..self
        }
    }

    /// Returns whether reading goes on after an invalid line.
    pub fn keeps_going(self) -> bool
        ensures { result ≡ self.keep_going }
    {
        self.keep_going
    }

    /// Returns whether each city object must be reached.
    pub fn asks_for_trees(self) -> bool
        ensures { result ≡ self.all_reached }
    {
        self.tree
    }

    /// Returns whether the features that the query selects are left out.
    pub fn excludes(self) -> bool
        ensures { result ≡ self.exclude }
    {
        self.exclude
    }

    /// Returns whether types of extensions are known.
    pub fn knows_extensions(self) -> bool
        ensures { result ≡ self.extensions }
    {
        self.extensions
    }
}

//! A request as C has it, and its faults.
ghost use Rattle.std.specs.Prelude.{◌≡◌, OnOk, IfErr};
ghost use Rattle.cityseq_c.specs.Request.{fault_code};

use cj_stream::Options;

/// How lines are judged, and which features are kept: those that satisfy each part of the query
/// that is set. Ids, types and LoDs are texts in UTF-8, with an LF between each two. A length of 0
/// means no text.
#[repr(C)]
#[derive(Clone, Copy)]
pub struct Request<'a> {
    /// The most bytes of a line without its LF.
    pub line_limit: u64,
    /// The most arrays and objects that are open at once.
    pub depth_limit: u64,
    /// Whether an invalid line after the header is reported, and reading goes on.
    pub keep_going: bool,
    /// Whether each city object must be reached from the feature's main one.
    pub tree: bool,
    /// Whether the features that satisfy the query are left out, and all others kept.
    pub exclude: bool,
    /// Whether types of extensions are known: those that begin with `+`. Then `types` may name
    /// them.
    pub extensions: bool,
    /// Whether the id must be one of `ids`.
    pub asks_ids: bool,
    /// Whether some city object must have one of the `types`.
    pub asks_types: bool,
    /// Whether some geometry must have one of the `lods`, spelled the same.
    pub asks_lods: bool,
    /// Whether some vertices must be in the box.
    pub asks_box: bool,
    pub ids: &'a [u8],
    pub types: &'a [u8],
    pub lods: &'a [u8],
    /// The box: `minx,miny,maxx,maxy`.
    pub bbox: &'a [u8],
}

/// What is wrong with a request.
#[derive(Clone, Copy, Debug, PartialEq, Eq)]
pub enum Fault {
    /// The line limit is out of range.
    LineLimit,
    /// The depth limit is out of range.
    DepthLimit,
    /// The header is not one line with its LF. It may lack the LF if the part is empty.
    NoLine,
    /// A text is not UTF-8.
    NotUtf8,
    /// No city object type has this name.
    UnknownType,
    /// The box is not four numbers with commas between them.
    BadBox,
    /// A number of the box is out of range.
    BoxRange,
    /// The least edge of the box is above the greatest.
    EmptyBox,
    /// The header and the part have more than 2^60 bytes.
    TooLong,
}

/// Why nothing of a stream is judged.
#[derive(Clone, Copy, Debug, PartialEq, Eq)]
pub enum NotJudged {
    /// The request is wrong.
    Fault(Fault),
    /// No memory was granted.
    Memory,
}

impl Fault {
    /// Returns its number in C, a `cityseq_fault`.
    pub fn code(self) -> u32
        ensures { result ≡ fault_code self }
    {
        match self {
            Fault::LineLimit => 1,
            Fault::DepthLimit => 2,
            Fault::NoLine => 3,
            Fault::NotUtf8 => 4,
            Fault::UnknownType => 5,
            Fault::BadBox => 6,
            Fault::BoxRange => 7,
            Fault::EmptyBox => 8,
            Fault::TooLong => 9,
        }
    }
}

impl Request<'_> {
    ghost use Rattle.cityseq_c.specs.Request.{options_of};

    /// Returns the options that are set.
    pub fn options(&self) -> Options
        ensures { result ≡ options_of self.now }
    {
        Options::new()
            .keep_going(self.keep_going)
            .tree(self.tree)
            .exclude(self.exclude)
            .extensions(self.extensions)
    }
}

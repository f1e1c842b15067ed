//! Why a line is invalid.
ghost use Rattle.std.specs.Prelude.{◌≡◌};
ghost use Rattle.cj_spans.specs.Meaning.Reason.{code_of};
ghost use Rattle.cj_spans.specs.Meaning.ReasonWords.{words_of};

/// Why a line is invalid. A reason has a code and a text. The code orders the findings at one byte.
#[derive(Clone, Copy, Debug, PartialEq, Eq)]
pub enum Reason {
    /// There is no line.
    NoHeader,
    /// A line has more bytes than the line limit.
    LineTooLong,
    /// A line is not UTF-8.
    NotUtf8,
    /// A line is no JSON text.
    Syntax,
    /// A line opens more arrays and objects than the depth limit.
    TooDeep,
    /// A required member is missing.
    MissingMember,
    /// A name occurs twice in one object.
    DuplicateName,
    /// A value does not have the required kind.
    WrongKind,
    /// A number has too many digits or too great a power of ten.
    NumberRange,
    /// The `type` of the line is not the required one.
    WrongType,
    /// The version is not 2.0.
    WrongVersion,
    /// A list or an object of the header is not empty.
    NotEmpty,
    /// A list does not have three items.
    NotThree,
    /// A number is not whole, or too great.
    NotWhole,
    /// No city object type has this name.
    UnknownObjectType,
    /// The id of the feature names none of its city objects.
    IdNotFound,
    /// A child is not in the feature.
    ChildNotFound,
    /// A parent and a child do not name each other.
    LinkNotMutual,
    /// A city object of the second level has no parent in the feature.
    NoParent,
    /// No geometry type has this name.
    UnknownGeometryType,
    /// An index is not that of a vertex.
    VertexIndex,
    /// The number of semantic values is not the number of parts.
    SemanticsCount,
    /// An index is not that of a semantic surface.
    SemanticsIndex,
    /// An index is not that of a template.
    TemplateIndex,
    /// An instance does not have one index, or does not have 16 numbers.
    BadInstance,
    /// A number of the transform cannot be compared with a box.
    TransformNotFixed,
    /// A city object is not reached from the main city object.
    NotReached,
}

impl Reason {
    /// Returns the code and the text of the reason.
    fn row(self) -> (u8, &'static str)
        ensures code { result.0 ≡ code_of self }
        ensures text { result.1.now ≡ words_of self }
    {
        match self {
            Reason::NoHeader => (1, "no header line"),
            Reason::LineTooLong => (2, "line too long"),
            Reason::NotUtf8 => (3, "not UTF-8"),
            Reason::Syntax => (4, "syntax"),
            Reason::TooDeep => (5, "nested too deep"),
            Reason::MissingMember => (10, "member missing"),
            Reason::DuplicateName => (11, "duplicate name"),
            Reason::WrongKind => (12, "wrong kind"),
            Reason::NumberRange => (13, "number out of range"),
            Reason::WrongType => (14, "wrong type"),
            Reason::WrongVersion => (15, "wrong version"),
            Reason::NotEmpty => (16, "not empty"),
            Reason::NotThree => (17, "not three items"),
            Reason::NotWhole => (18, "not a whole number"),
            Reason::UnknownObjectType => (19, "unknown object type"),
            Reason::IdNotFound => (20, "id not among the city objects"),
            Reason::ChildNotFound => (21, "child not found"),
            Reason::LinkNotMutual => (22, "link not mutual"),
            Reason::NoParent => (23, "no parent in the feature"),
            Reason::UnknownGeometryType => (24, "unknown geometry type"),
            Reason::VertexIndex => (25, "vertex index out of range"),
            Reason::SemanticsCount => (26, "semantics count"),
            Reason::SemanticsIndex => (27, "semantics index out of range"),
            Reason::TemplateIndex => (28, "template index out of range"),
            Reason::BadInstance => (29, "bad instance"),
            Reason::TransformNotFixed => (30, "transform not fixed"),
            Reason::NotReached => (31, "not reached from the main object"),
        }
    }

    /// Returns the code of the reason.
    pub fn code(self) -> u8
        ensures { result ≡ code_of self }
    {
        self.row().0
    }

    /// Returns the reason in a few words.
    pub fn text(self) -> &'static str
        ensures { result.now ≡ words_of self }
    {
        self.row().1
    }
}

//! The texts of reasons, by their codes, and the names of types, by their numbers.
ghost use Rattle.std.specs.Prelude.{◌≡◌, length};
ghost use Rattle.cityseq_c.specs.Words.{IsCopied, reason_with, reason_words, reasons, type_words};

use cj_geometry::ObjectType;
use cj_stream::Reason;

/// Returns all reasons, in the order of their codes.
fn all_reasons() -> [Reason; 27]
    ensures { result ≡ reasons }
{
    [
        Reason::NoHeader,
        Reason::LineTooLong,
        Reason::NotUtf8,
        Reason::Syntax,
        Reason::TooDeep,
        Reason::MissingMember,
        Reason::DuplicateName,
        Reason::WrongKind,
        Reason::NumberRange,
        Reason::WrongType,
        Reason::WrongVersion,
        Reason::NotEmpty,
        Reason::NotThree,
        Reason::NotWhole,
        Reason::UnknownObjectType,
        Reason::IdNotFound,
        Reason::ChildNotFound,
        Reason::LinkNotMutual,
        Reason::NoParent,
        Reason::UnknownGeometryType,
        Reason::VertexIndex,
        Reason::SemanticsCount,
        Reason::SemanticsIndex,
        Reason::TemplateIndex,
        Reason::BadInstance,
        Reason::TransformNotFixed,
        Reason::NotReached,
    ]
}

/// Returns the reason with this code. None if there is none.
pub fn reason_of(code: u64) -> Option<Reason>
    ensures { result ≡ reason_with code }
{
    for reason in all_reasons() {
        if reason.code() as u64 == code {
            return Some(reason);
        }
    }
    None
}

/// Returns the text of the reason with this code. It is empty if there is none.
pub fn reason_text(code: u64) -> &'static str
    ensures { result.now ≡ reason_words code }
{
    match reason_of(code) {
        Some(reason) => reason.text(),
        None => "",
    }
}

/// Returns the name of the type with this number. It is `extension` for the number of all types of
/// extensions, the last one, and empty if there is none.
pub fn type_name(number: u64) -> &'static str
    ensures { result.now ≡ type_words number }
{
    for object_type in ObjectType::all() {
        if object_type.number() as u64 == number {
            return object_type.name();
        }
    }
    if number == ObjectType::COUNT as u64 {
        return "extension";
    }
    ""
}

/// Copies a text to `room` as far as it fits. Returns how many bytes the text has.
pub fn copy(text: &str, room: &mut [u8]) -> usize
    ensures { IsCopied text.now room.old room.new result }
{
    let bytes = text.as_bytes();
    let fits = bytes.len().min(room.len());
    room[..fits].copy_from_slice(&bytes[..fits]);
    bytes.len()
}

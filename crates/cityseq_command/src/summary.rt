//! What `check` and `info` write about a stream.
ghost use Rattle.std.specs.Prelude.{◌≡◌, ◌≤◌, ◌<◌, OnOk, OnErr, get_or, map, ◌∷◌, []};
ghost use Rattle.std.specs.Io.KnownBytes.{Appends};
ghost use Rattle.cj_stream.specs.Sink.{AppendsPart, RisesOnErr};
ghost use Rattle.cj_stream.specs.Output.{channel, output_writer, output_failures};
ghost use Rattle.cityseq_command.specs.FaultLines.{Wrote};
ghost use Rattle.cityseq_command.specs.Summary.{check_text, numbers_line, power_text, types_text, class_names};
ghost use Rattle.cityseq_command.specs.Summary.{extensions_text, lods_text};
ghost use Rattle.cityseq_command.specs.Summary.{range_line, ranges_text, tally_text, peaks_text, summary_text};
ghost use Rattle.cityseq_command.specs.Text.{text_line, count_line, counted};

use crate::fault_lines::{write_text, write_texts};
use cj_budget::Peaks;
use cj_decimal::Decimal;
use cj_geometry::ObjectType;
use cj_stream::{LOD_CLASSES, Output, TallySink, WriteFault};
use itoa::Buffer;
use std::io::Write;

/// Writes the line of `check`: how many lines were handled, and how many features are among
/// them. If lines are invalid, it has their number too.
///
/// # Errors
///
/// A write fault, after a prefix of the text.
pub fn write_check<W: Write + Drop>(
    out: &mut Output<W>,
    lines: u64,
    features: u64,
    refused: u64,
) -> Result<(), WriteFault>
    ensures ok { OnOk result
        (Appends (W.contents (output_writer out.old)) (W.contents (output_writer out.new))
        (check_text lines features refused)) }
    ensures fault { OnErr result
        (AppendsPart (W.contents (output_writer out.old)) (W.contents (output_writer out.new))
        (check_text lines features refused)) }
    ensures failures { RisesOnErr result (output_failures out.old) (output_failures out.new) }
{
    if refused == 0 {
        write_valid(out, lines, features)
    } else {
        write_invalid(out, lines, features, refused)
    }
}

/// Writes the number of lines and features of a valid stream.
fn write_valid<W: Write + Drop>(
    out: &mut Output<W>,
    lines: u64,
    features: u64,
) -> Result<(), WriteFault>
    ensures { Wrote (check_text lines features 0) result (channel W.contents out.old) (channel W.contents out.new) }
{
    let mut line_digits = Buffer::new();
    let mut feature_digits = Buffer::new();
    let texts = [
        "valid lines=",
        line_digits.format(lines),
        " features=",
        feature_digits.format(features),
        "\n",
    ];
    write_texts(out, &texts)
}

/// Writes the number of lines and features of a stream, and how many of its lines are invalid.
fn write_invalid<W: Write + Drop>(
    out: &mut Output<W>,
    lines: u64,
    features: u64,
    refused: u64,
) -> Result<(), WriteFault>
    requires { 0 < refused }
    ensures { Wrote (check_text lines features refused) result
        (channel W.contents out.old) (channel W.contents out.new) }
{
    let mut line_digits = Buffer::new();
    let mut feature_digits = Buffer::new();
    let mut refused_digits = Buffer::new();
    let texts = [
        "invalid lines=",
        line_digits.format(lines),
        " features=",
        feature_digits.format(features),
        " refused=",
        refused_digits.format(refused),
        "\n",
    ];
    write_texts(out, &texts)
}

/// Writes a line: a name, and words after it, each after a space.
fn write_line<W: Write + Drop>(
    out: &mut Output<W>,
    name: &str,
    words: &[&str],
) -> Result<(), WriteFault>
    ensures { Wrote (text_line name.now (map (λ word. word.now) words.now)) result
        (channel W.contents out.old) (channel W.contents out.new) }
{
    write_text(out, name)?;
    for word in words {
        write_texts(out, &[" ", *word])?;
    }
    write_text(out, "\n")
}

/// Writes a line with a count.
fn write_count<W: Write + Drop>(
    out: &mut Output<W>,
    name: &str,
    count: u64,
) -> Result<(), WriteFault>
    ensures { Wrote (count_line name.now count) result (channel W.contents out.old) (channel W.contents out.new) }
{
    let mut digits = Buffer::new();
    write_line(out, name, &[digits.format(count)])
}

/// Writes a line with the count of one name of a kind, unless it is 0.
fn write_counted<W: Write + Drop>(
    out: &mut Output<W>,
    kind: &str,
    name: &str,
    count: u64,
) -> Result<(), WriteFault>
    ensures { Wrote (counted kind.now name.now count) result (channel W.contents out.old) (channel W.contents out.new) }
{
    if count == 0 {
        return Ok(());
    }
    let mut digits = Buffer::new();
    write_line(out, kind, &[name, digits.format(count)])
}

/// Writes a space and a number, as its coefficient, `e`, and its power of ten.
fn write_power<W: Write + Drop>(out: &mut Output<W>, number: Decimal) -> Result<(), WriteFault>
    ensures { Wrote (32 ∷ power_text number) result (channel W.contents out.old) (channel W.contents out.new) }
{
    let mut coefficient = Buffer::new();
    let mut power = Buffer::new();
    let texts = [
        " ",
        coefficient.format(number.coefficient()),
        "e",
        power.format(number.power()),
    ];
    write_texts(out, &texts)
}

/// Writes a line with the numbers of a transform, if there is one.
fn write_numbers<W: Write + Drop>(
    out: &mut Output<W>,
    name: &str,
    numbers: Option<[Decimal; 3]>,
) -> Result<(), WriteFault>
    ensures { Wrote (numbers_line name.now numbers) result (channel W.contents out.old) (channel W.contents out.new) }
{
    let Some(numbers) = numbers else {
        return Ok(());
    };
    write_text(out, name)?;
    for number in numbers {
        write_power(out, number)?;
    }
    write_text(out, "\n")
}

/// Writes the number of city objects of each type that occurs.
fn write_types<W: Write + Drop>(out: &mut Output<W>, tally: &TallySink) -> Result<(), WriteFault>
    ensures { Wrote (types_text tally.now) result (channel W.contents out.old) (channel W.contents out.new) }
{
    for object_type in ObjectType::all() {
        write_counted(out, "type", object_type.name(), tally.by_type(object_type))?;
    }
    Ok(())
}

/// Writes the number of city objects of types of extensions, if there are any.
fn write_extensions<W: Write + Drop>(
    out: &mut Output<W>,
    tally: &TallySink,
) -> Result<(), WriteFault>
    ensures { Wrote (extensions_text tally.now) result (channel W.contents out.old) (channel W.contents out.new) }
{
    write_counted(out, "type", "extension", tally.of_extensions())
}

/// Returns the name of an LoD class.
fn class_name(class: u8) -> &'static str
    requires { class ≤ 5 }
    ensures { result.now ≡ get_or class_names class [] }
{
    match class {
        0 => "0",
        1 => "1",
        2 => "2",
        3 => "3",
        4 => "4",
        _ => "other",
    }
}

/// Writes the number of geometries of each LoD class that occurs.
fn write_lods<W: Write + Drop>(out: &mut Output<W>, tally: &TallySink) -> Result<(), WriteFault>
    ensures { Wrote (lods_text tally.now) result (channel W.contents out.old) (channel W.contents out.new) }
{
    for class in 0..LOD_CLASSES as u8 {
        write_counted(out, "lod", class_name(class), tally.by_lod(class))?;
    }
    Ok(())
}

/// Writes the least and the greatest vertex coordinate on an axis, if there is a vertex.
fn write_range<W: Write + Drop>(
    out: &mut Output<W>,
    axis: &str,
    range: Option<(i64, i64)>,
) -> Result<(), WriteFault>
    ensures { Wrote (range_line axis.now range) result (channel W.contents out.old) (channel W.contents out.new) }
{
    let Some((least, greatest)) = range else {
        return Ok(());
    };
    let mut least_digits = Buffer::new();
    let mut greatest_digits = Buffer::new();
    write_line(
        out,
        axis,
        &[least_digits.format(least), greatest_digits.format(greatest)],
    )
}

/// Writes the range on each axis.
fn write_ranges<W: Write + Drop>(out: &mut Output<W>, tally: &TallySink) -> Result<(), WriteFault>
    ensures { Wrote (ranges_text tally.now) result (channel W.contents out.old) (channel W.contents out.new) }
{
    write_range(out, "x", tally.range(0))?;
    write_range(out, "y", tally.range(1))?;
    write_range(out, "z", tally.range(2))
}

/// Writes what was counted: features, the transform, types, LoDs and ranges.
fn write_tally<W: Write + Drop>(out: &mut Output<W>, tally: &TallySink) -> Result<(), WriteFault>
    ensures { Wrote (tally_text tally.now) result (channel W.contents out.old) (channel W.contents out.new) }
{
    write_count(out, "features", tally.features())?;
    write_numbers(out, "scale", tally.scale())?;
    write_numbers(out, "translate", tally.translate())?;
    write_types(out, tally)?;
    write_extensions(out, tally)?;
    write_lods(out, tally)?;
    write_ranges(out, tally)
}

/// Writes the peaks: how much was held at most.
fn write_peaks<W: Write + Drop>(out: &mut Output<W>, peaks: Peaks) -> Result<(), WriteFault>
    ensures { Wrote (peaks_text peaks) result (channel W.contents out.old) (channel W.contents out.new) }
{
    write_count(out, "peak bytes", peaks.bytes)?;
    write_count(out, "peak tokens", peaks.tokens)?;
    write_count(out, "peak open", peaks.depth)
}

/// Writes the summary of `info`: the number of lines, the tally of the stream, and the peaks.
///
/// # Errors
///
/// A write fault, after a prefix of the summary.
pub fn write_summary<W: Write + Drop>(
    out: &mut Output<W>,
    lines: u64,
    tally: &TallySink,
    peaks: Peaks,
) -> Result<(), WriteFault>
    ensures ok { OnOk result
        (Appends (W.contents (output_writer out.old)) (W.contents (output_writer out.new))
        (summary_text lines tally.now peaks)) }
    ensures fault { OnErr result
        (AppendsPart (W.contents (output_writer out.old)) (W.contents (output_writer out.new))
        (summary_text lines tally.now peaks)) }
    ensures failures { RisesOnErr result (output_failures out.old) (output_failures out.new) }
{
    write_count(out, "lines", lines)?;
    write_tally(out, tally)?;
    write_peaks(out, peaks)
}

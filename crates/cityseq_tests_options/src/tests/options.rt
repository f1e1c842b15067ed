//! Rows of the command line: which words ask for what.
ghost use Rattle.cityseq_command.specs.Performed.{TakesOptions};

use super::calls::{check_at, check_bytes, check_written};
use cityseq_command::ask::{Ask, perform};
use cityseq_testkit::commanded;
use cj_budget::Limits;
use cj_stream::{Options, Output};
use cj_stream_testkit::{FEATURE, HEADER, SlowReader, SlowWriter, joined};
use std::alloc::Global;
use std::process::Abort;
use std::test::Fail;

/// A feature without geometries or vertices.
const BARE: &[u8] =
    b"{\"type\":\"CityJSONFeature\",\"id\":\"b\",\"CityObjects\":{\"b\":{\"type\":\"Building\"}},\"vertices\":[]}";

/// A header whose transform has numbers at the limits of the range, and a negative zero.
const ODD_HEADER: &[u8] =
    b"{\"type\":\"CityJSON\",\"version\":\"2.0\",\"transform\":{\"scale\":[-0.0,1.50e3,1e-1000000],\"translate\":[-123456789012345678901234567890123456,0e5,-25]},\"CityObjects\":{},\"vertices\":[]}";

/// A feature with two types, two levels of detail, one without a class, and negative coordinates.
const MIXED: &[u8] =
    b"{\"type\":\"CityJSONFeature\",\"id\":\"m\",\"CityObjects\":{\"m\":{\"type\":\"Road\",\"geometry\":[{\"type\":\"MultiPoint\",\"lod\":\"x\",\"boundaries\":[0]},{\"type\":\"MultiPoint\",\"lod\":\"\\u0032.2\",\"boundaries\":[1]},{\"type\":\"MultiPoint\",\"lod\":\"\",\"boundaries\":[1]}]},\"n\":{\"type\":\"Bridge\"}},\"vertices\":[[-5,7,-9],[3,-2,-1]]}";

/// Runs these words over an input, and compares the output and the status.
fn check_command(
    rt: &impl Abort,
    alloc: Global,
    arguments: &[&str],
    input: &[u8],
    status: u8,
    out: &[u8],
    err: &[u8],
) -> Result<(), Fail> {
    let written = commanded(alloc, arguments, &mut SlowReader::new(input, 1_000))?;
    check_written(rt, &written, status, out, err);
    Ok(())
}

/// Does the same over a header and a feature that are invalid. Only a line on standard error is
/// written.
fn check_told(rt: &impl Abort, alloc: Global, arguments: &[&str], err: &[u8]) -> Result<(), Fail> {
    let input = joined(alloc, &[HEADER, b"\n", FEATURE, b"\n"])?;
    check_command(rt, alloc, arguments, &input, 1, b"", err)
}

#[test]
fn check_counts_lines_and_features(rt: HostRuntime) -> Result<(), Fail> {
    let input = joined(rt.alloc(), &[HEADER, b"\n", FEATURE, b"\n"])?;
    let told = b"valid lines=2 features=1\n";
    check_command(&rt, rt.alloc(), &["check"], &input, 0, told, b"")?;
    let alone = joined(rt.alloc(), &[HEADER, b"\n \r\n"])?;
    let told = b"valid lines=2 features=0\n";
    check_command(&rt, rt.alloc(), &["check"], &alone, 0, told, b"")
}

#[test]
fn limits_are_heeded(rt: HostRuntime) -> Result<(), Fail> {
    let told = b"line 2, byte 137: 5 nested too deep\n";
    check_told(&rt, rt.alloc(), &["check", "--depth", "7"], told)?;
    check_told(&rt, rt.alloc(), &["info", "--depth=7"], told)?;
    let told = b"line 2, byte 209: 2 line too long\n";
    check_told(&rt, rt.alloc(), &["check", "--line-limit", "209"], told)?;
    check_told(&rt, rt.alloc(), &["info", "--line-limit=209"], told)?;
    let input = joined(rt.alloc(), &[HEADER, b"\n", FEATURE, b"\n"])?;
    let enough = ["filter", "--line-limit=210", "--depth=8"];
    check_command(&rt, rt.alloc(), &enough, &input, 0, &input, b"")
}

#[test]
fn each_command_refuses_a_stream(rt: HostRuntime) -> Result<(), Fail> {
    let told = b"line 1, byte 0: 1 no header line\n";
    check_command(&rt, rt.alloc(), &["check"], b"", 1, b"", told)?;
    check_command(&rt, rt.alloc(), &["filter"], b"", 1, b"", told)?;
    check_command(&rt, rt.alloc(), &["info"], b"", 1, b"", told)?;
    let late = joined(rt.alloc(), &[HEADER, b"\n", FEATURE, b"\n[]\n"])?;
    let told = b"line 3, byte 0: 12 wrong kind\n";
    check_command(&rt, rt.alloc(), &["check"], &late, 1, b"", told)?;
    check_command(&rt, rt.alloc(), &["info"], &late, 1, b"", told)
}

/// Zeros or a plus may stand before the digits.
#[test]
fn limits_are_read_as_numbers(rt: HostRuntime) -> Result<(), Fail> {
    let told = b"line 2, byte 137: 5 nested too deep\n";
    check_told(&rt, rt.alloc(), &["check", "--depth", "007"], told)?;
    check_told(&rt, rt.alloc(), &["info", "--depth=+7"], told)?;
    let told = b"line 2, byte 209: 2 line too long\n";
    check_told(&rt, rt.alloc(), &["check", "--line-limit=+209"], told)?;
    check_told(&rt, rt.alloc(), &["info", "--line-limit=000209"], told)
}

/// Checks that nothing is read or written, that the status is 2, and that standard error begins
/// with this.
fn check_wrong_words(
    rt: &impl Abort,
    alloc: Global,
    arguments: &[&str],
    told: &str,
) -> Result<(), Fail> {
    let mut reader = SlowReader::new(HEADER, 10);
    let written = commanded(alloc, arguments, &mut reader)?;
    let front = &written.err[..told.len().min(written.err.len())];
    check_bytes(rt, front, told.as_bytes(), "standard error", 0);
    check_bytes(rt, &written.out, b"", "standard output", 0);
    check_at(rt, written.status, 2, "status", 0);
    check_at(rt, reader.reads, 0, "reads", 0);
    Ok(())
}

#[test]
fn wrong_words_are_declined_unread(rt: HostRuntime) -> Result<(), Fail> {
    check_wrong_words(&rt, rt.alloc(), &[], "Check, filter and summarise")?;
    check_wrong_words(
        &rt,
        rt.alloc(),
        &["Filter"],
        "error: unrecognized subcommand 'Filter'",
    )?;
    check_wrong_words(
        &rt,
        rt.alloc(),
        &["check", "--id", "b1"],
        "error: unexpected argument '--id' found",
    )?;
    check_wrong_words(
        &rt,
        rt.alloc(),
        &["info", "--keep-going"],
        "error: unexpected argument '--keep-going' found",
    )?;
    check_wrong_words(
        &rt,
        rt.alloc(),
        &["filter", "filter"],
        "error: unexpected argument 'filter' found",
    )?;
    check_wrong_words(
        &rt,
        rt.alloc(),
        &["filter", "--id", "a", "--id", "b"],
        "error: the argument '--id <IDS>' cannot be used multiple times",
    )
}

#[test]
fn limits_out_of_range_are_declined_unread(rt: HostRuntime) -> Result<(), Fail> {
    let lines = "error: invalid value '0' for '--line-limit <BYTES>': 0 is not in 1..=1073741824";
    check_wrong_words(&rt, rt.alloc(), &["filter", "--line-limit", "0"], lines)?;
    let lines =
        "error: invalid value '1073741825' for '--line-limit <BYTES>': 1073741825 is not in 1..=1073741824";
    check_wrong_words(
        &rt,
        rt.alloc(),
        &["check", "--line-limit=1073741825"],
        lines,
    )?;
    let depth = "error: invalid value '1025' for '--depth <LEVELS>': 1025 is not in 1..=1024";
    check_wrong_words(&rt, rt.alloc(), &["info", "--depth", "1025"], depth)
}

#[test]
fn help_is_written_and_nothing_read(rt: HostRuntime) -> Result<(), Fail> {
    let mut reader = SlowReader::new(HEADER, 10);
    let written = commanded(rt.alloc(), &["--version"], &mut reader)?;
    check_written(&rt, &written, 0, b"cityseq 0.2.0\n", b"");
    check_at(&rt, reader.reads, 0, "reads", 0);
    Ok(())
}

#[test]
fn info_reports(rt: HostRuntime) -> Result<(), Fail> {
    let input = joined(rt.alloc(), &[HEADER, b"\n", BARE, b"\n", FEATURE, b"\n"])?;
    let told =
        b"lines 3\nfeatures 2\nscale 1e-3 1e-3 1e-3\ntranslate 1e3 2e3 0e0\ntype Building 2\nlod 2 1\nx 0 1000\ny 0 1000\nz 0 0\npeak bytes 350\npeak tokens 65\npeak open 8\n";
    check_command(&rt, rt.alloc(), &["info"], &input, 0, told, b"")
}

#[test]
fn info_reports_odd_numbers(rt: HostRuntime) -> Result<(), Fail> {
    let input = joined(rt.alloc(), &[ODD_HEADER, b"\n", MIXED])?;
    let told =
        b"lines 2\nfeatures 1\nscale 0e0 15e2 1e-1000000\ntranslate -123456789012345678901234567890123456e0 0e0 -25e0\ntype Bridge 1\ntype Road 1\nlod 2 1\nlod other 2\nx -5 3\ny -2 7\nz -9 -1\n";
    let written = commanded(rt.alloc(), &["info"], &mut SlowReader::new(&input, 7))?;
    let front = &written.out[..told.len().min(written.out.len())];
    check_bytes(&rt, front, told, "standard output", 0);
    check_at(&rt, written.status, 0, "status", 0);
    Ok(())
}

/// Asks for a text of the program, to a writer that fails. A prefix of the text is written.
fn check_failing_text(
    rt: &impl Abort,
    alloc: Global,
    ask: &Ask,
    fails_at: u64,
    wanted: &[u8],
) -> Result<(), Fail>
    requires { TakesOptions ask.now }
{
    let mut out = SlowWriter::new(Vec::new(alloc), 5);
    out.fails_at = fails_at;
    out.flush_fails = fails_at == 0;
    let mut err = Vec::new(alloc);
    let mut reader = SlowReader::new(HEADER, 100);
    let status = perform(
        alloc,
        ask,
        &mut reader,
        &mut Output::new(&mut out),
        &mut Output::new(&mut err),
    );
    check_at(rt, status, 4, "status", fails_at);
    check_bytes(rt, &out.bytes, wanted, "standard output", fails_at);
    check_bytes(rt, &err, b"write fault\n", "standard error", fails_at);
    Ok(())
}

#[test]
fn a_text_that_cannot_be_written(rt: HostRuntime) -> Result<(), Fail> {
    let check = Ask::Check(Limits::new(140, 3)?, Options::new());
    check_failing_text(&rt, rt.alloc(), &check, 1, b"")?;
    check_failing_text(&rt, rt.alloc(), &check, 3, b"valid line")?;
    check_failing_text(&rt, rt.alloc(), &check, 0, b"valid lines=1 features=0\n")?;
    let info = Ask::Info(Limits::new(140, 3)?, Options::new());
    check_failing_text(&rt, rt.alloc(), &info, 1, b"")?;
    check_failing_text(&rt, rt.alloc(), &info, 2, b"lines")
}

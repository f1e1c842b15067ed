//! The words of the command line, read by `clap`: the help, and the limits and texts of the
//! options.
ghost use Rattle.std.specs.Prelude.{◌≡◌, IfOk, IfErr, true, codes, decimal, map, string_bytes};
ghost use Rattle.clap.specs.Words.{App, FailsBy, fault_of, kind_of, subcommand_of, subcommand_rows_of, new_app, takes};
ghost use Rattle.clap.specs.declared.error.kind.ErrorKind.{ErrorKind};
ghost use Rattle.cityseq_command.specs.Commands.{IsOption, IsCommand, line_rule, depth_rule, flag_rule, text_rule};
ghost use Rattle.cityseq_command.specs.Commands.{with_limits as limited, check_app, filter_app, info_app, program_app};
ghost use Rattle.cityseq_command.specs.Options.{texts_of as texts_given};
ghost use Rattle.cityseq_command.specs.Words.{texts_in, HasNumber, HasLimits, DeclinesLimits, HasFlag, HasCheckOptions};
ghost use Rattle.cityseq_command.specs.Words.{HasFilterOptions, HasInfoOptions};

use cj_budget::{LimitFault, Limits, USUAL_DEPTH, USUAL_LINE};
use cj_stream::{Options, VERSION};
use clap::{Arg, ArgAction, ArgMatches, Command, Error, value_parser};
use std::alloc::{AllocError, Global};

/// The names of the options in `clap`.
const LINE_LIMIT: &str = "line-limit";

const DEPTH: &str = "depth";

const IDS: &str = "id";

const TYPES: &str = "type";

const LODS: &str = "lod";

const BBOX: &str = "bbox";

const KEEP_GOING: &str = "keep-going";

const TREE: &str = "tree";

const EXCLUDE: &str = "exclude";

const EXTENSIONS: &str = "extensions";

/// The text after the help of the program.
const STATUSES: &str = "\
Exit status:
  0  The stream is valid up to its end.
  1  A line is invalid. Standard error gives line, byte and reason.
     With --keep-going it lists every invalid line.
  2  The command line is wrong.
  3  A read failed.
  4  A write failed.
  5  The system refused memory.

A CityJSONSeq stream is a CityJSON 2.0 header, then one CityJSONFeature on each line.
The program reads it from standard input.
docs/RULES.md explains each reason, and docs/GUIDE.md shows the program at work.";

/// The texts after the help of each command.
const CHECK_EXAMPLE: &str = "\
Examples:
  cityseq check < town.city.jsonl
  cityseq check --keep-going < town.city.jsonl 2> invalid-lines.txt

If the whole stream is valid, the output is 'valid lines=N features=M'.
Otherwise standard error gives line, byte and reason of the first invalid line.
With --keep-going it lists every invalid line, and the output is
'invalid lines=N features=M refused=R' (R invalid lines). An invalid header still ends the run.
See 'cityseq --help' for the exit status.";

const FILTER_EXAMPLE: &str = "\
Examples:
  cityseq filter --type Building,BuildingPart --lod 2.2 < town.city.jsonl > buildings.city.jsonl
  zcat town.city.jsonl.gz | cityseq filter --bbox=-5,0,5000,5000 | gzip > part.city.jsonl.gz
  cityseq filter --keep-going < town.city.jsonl > good.city.jsonl 2> invalid-lines.txt

Kept lines are copied byte for byte, in order. A feature is kept if it meets each option from --id
to --bbox that is given. With --exclude it is kept if it does not. Without these options every
feature is kept.
The run stops at the first invalid line. Features before it have been written. With --keep-going the
run leaves out invalid lines and goes on. An invalid header still ends it.
See 'cityseq --help' for the exit status.";

const INFO_EXAMPLE: &str = "\
Example:
  cityseq info < town.city.jsonl

If the whole stream is valid, the output has the numbers of lines and features, scale and
translation, city objects by type, and geometries by LoD. It also has the least and the greatest
number of the vertices on each axis, and the most bytes, tokens and open arrays and objects that
were in memory.
See 'cityseq --help' for the exit status.";

/// Returns the default line limit, as the text that `clap` reads and shows.
fn usual_line() -> &'static str
    ensures { result.now ≡ decimal USUAL_LINE }
{
    "8388608"
}

/// Returns the default depth limit, as the text that `clap` reads and shows.
fn usual_depth() -> &'static str
    ensures { result.now ≡ decimal USUAL_DEPTH }
{
    "64"
}

/// Returns the option of the line limit.
fn line_limit<'a>(alloc: Global) -> Arg<'a>
    ensures { IsOption result line_rule }
{
    Arg::new(alloc, LINE_LIMIT)
        .long(LINE_LIMIT)
        .value_name("BYTES")
        .value_parser(value_parser!(u64).range(1..=1_073_741_824))
        .default_value(usual_line())
        .help("Reject a line of more bytes, from 1 to 1073741824")
}

/// Returns the option of the depth limit.
fn depth_limit<'a>(alloc: Global) -> Arg<'a>
    ensures { IsOption result depth_rule }
{
    Arg::new(alloc, DEPTH)
        .long(DEPTH)
        .value_name("LEVELS")
        .value_parser(value_parser!(u64).range(1..=1_024))
        .default_value(usual_depth())
        .help("Reject a line with more arrays and objects open at once, from 1 to 1024")
}

/// Returns a command with the options that all commands have: the limits.
fn with_limits(command: Command<'_>, alloc: Global) -> Result<Command<'_>, AllocError>
    ensures { IfOk result (λ c. (a : App) → IsCommand command.entry a → IsCommand c (limited a)) }
{
    command.arg(line_limit(alloc))?.arg(depth_limit(alloc))
}

/// Returns an option that takes no text.
fn flag<'a>(alloc: Global, name: &'a str, help: &'a str) -> Arg<'a>
    ensures { IsOption result (flag_rule name.entry.now) }
{
    Arg::new(alloc, name)
        .long(name)
        .action(ArgAction::SetTrue)
        .help(help)
}

/// Returns the option to go on after invalid lines.
fn keep_going<'a>(alloc: Global) -> Arg<'a>
    ensures { IsOption result (flag_rule (codes "keep-going")) }
{
    flag(
        alloc,
        KEEP_GOING,
        "Report each invalid line and go on with the next",
    )
}

/// Returns the option to require that each city object is reached.
fn tree<'a>(alloc: Global) -> Arg<'a>
    ensures { IsOption result (flag_rule (codes "tree")) }
{
    flag(
        alloc,
        TREE,
        "Reject a feature unless `children` lead from its main city object to all others",
    )
}

/// Returns the option to accept types of extensions.
fn extensions<'a>(alloc: Global) -> Arg<'a>
    ensures { IsOption result (flag_rule (codes "extensions")) }
{
    flag(
        alloc,
        EXTENSIONS,
        "Accept types of city objects that begin with `+`, the types of extensions",
    )
}

/// Returns an option of a query, which takes a text.
fn query_option<'a>(alloc: Global, name: &'a str, value: &'a str, help: &'a str) -> Arg<'a>
    ensures { IsOption result (text_rule name.entry.now) }
{
    Arg::new(alloc, name)
        .long(name)
        .value_name(value)
        .help(help)
}

/// Returns a command with its texts, and without options.
fn described<'a>(
    alloc: Global,
    name: &'a str,
    about: &'a str,
    usage: &'a str,
    examples: &'a str,
) -> Command<'a>
    ensures { IsCommand result (new_app name.entry.now) }
{
    Command::new(alloc, name)
        .about(about)
        .override_usage(usage)
        .after_help(examples)
}

fn check_command<'a>(alloc: Global) -> Result<Command<'a>, AllocError>
    ensures { IfOk result (λ c. IsCommand c check_app) }
{
    let command = described(
        alloc,
        "check",
        "Check whether a stream is valid, and count its lines and features",
        "cityseq check [OPTIONS] < FILE",
        CHECK_EXAMPLE,
    );
    with_limits(command, alloc)?
        .arg(keep_going(alloc))?
        .arg(tree(alloc))?
        .arg(extensions(alloc))
}

fn filter_command<'a>(alloc: Global) -> Result<Command<'a>, AllocError>
    ensures { IfOk result (λ c. IsCommand c filter_app) }
{
    let command = described(
        alloc,
        "filter",
        "Copy the header and the features that a query selects",
        "cityseq filter [OPTIONS] < FILE",
        FILTER_EXAMPLE,
    );
    with_limits(command, alloc)?
        .arg(keep_going(alloc))?
        .arg(tree(alloc))?
        .arg(extensions(alloc))?
        .arg(flag(
            alloc,
            EXCLUDE,
            "Keep the features that the options below do not select",
        ))?
        .arg(query_option(
            alloc,
            IDS,
            "IDS",
            "Select features by id: one id, or several with commas between them",
        ))?
        .arg(query_option(
            alloc,
            TYPES,
            "TYPES",
            "Select features that have a city object of one of these types; with --extensions a type may begin with `+`",
        ))?
        .arg(query_option(
            alloc,
            LODS,
            "LODS",
            "Select features that have a geometry with one of these LoDs",
        ))?
        .arg(query_option(
            alloc,
            BBOX,
            "MINX,MINY,MAXX,MAXY",
            "Select features that reach into this box, in world coordinates; write --bbox=-5,0,5,9 if it begins with a minus",
        ))
}

fn info_command<'a>(alloc: Global) -> Result<Command<'a>, AllocError>
    ensures { IfOk result (λ c. IsCommand c info_app) }
{
    let command = described(
        alloc,
        "info",
        "Summarise a valid stream: types, LoDs, extent and memory",
        "cityseq info [OPTIONS] < FILE",
        INFO_EXAMPLE,
    );
    with_limits(command, alloc)?
        .arg(tree(alloc))?
        .arg(extensions(alloc))
}

/// Returns what `clap` knows of the command line: the program with its commands, their options and
/// all help.
fn program<'a>(alloc: Global) -> Result<Command<'a>, AllocError>
    ensures { IfOk result (λ c. IsCommand c program_app) }
{
    Command::new(alloc, "cityseq")
        .version(VERSION)
        .about(
            "Check, filter and summarise a CityJSONSeq 2.0 stream, in one pass and in bounded memory",
        )
        .after_help(STATUSES)
        .arg_required_else_help(true)
        .subcommand_required(true)
        .subcommand(check_command(alloc)?)?
        .subcommand(filter_command(alloc)?)?
        .subcommand(info_command(alloc)?)
}

/// Reads the words of a command line. The first word is the program's name.
///
/// # Errors
///
/// What is wrong with the words, or the help that they ask for, as the text of `clap`.
pub fn read_words<'a>(alloc: Global, words: &'a [String]) -> Result<ArgMatches<'a>, Error>
    ensures ok { IfOk result (λ m. subcommand_rows_of m
        ≡ subcommand_of program_app (map string_bytes words.entry.now)) }
    ensures err { IfErr result (λ e. takes program_app (map string_bytes words.entry.now) ≡ true
        → kind_of e ≡ ErrorKind.OutOfMemory) }
    ensures kinds { FailsBy (fault_of program_app (map string_bytes words.entry.now)) result }
{
    program(alloc)?.try_get_matches_from(words)
}

/// Returns the number that an option was given, or the default.
fn number_of(matches: &ArgMatches, option: &str, usual: u64) -> u64
    ensures { HasNumber matches.now option.now usual result }
{
    matches.get_one::<u64>(option).unwrap_or(usual)
}

/// Returns the limits that a command was given, or the defaults.
///
/// # Errors
///
/// The first limit that is out of its range.
pub fn limits_of(matches: &ArgMatches) -> Result<Limits, LimitFault>
    ensures ok { IfOk result (λ limits. HasLimits matches.now limits) }
    ensures err { IfErr result (λ fault. DeclinesLimits matches.now fault) }
{
    let line = number_of(matches, LINE_LIMIT, USUAL_LINE);
    let depth = number_of(matches, DEPTH, USUAL_DEPTH);
    Limits::new(line, depth)
}

/// Returns whether an option that takes no text was given.
fn has_flag(matches: &ArgMatches, option: &str) -> bool
    ensures { HasFlag matches.now option.now result }
{
    matches.get_flag(option)
}

/// Returns the options that all commands have.
fn common_options(matches: &ArgMatches) -> Options
    ensures { HasInfoOptions matches.now result }
{
    Options::new()
        .tree(has_flag(matches, TREE))
        .extensions(has_flag(matches, EXTENSIONS))
}

/// Returns the options that `check` was given.
pub fn check_options(matches: &ArgMatches) -> Options
    ensures { HasCheckOptions matches.now result }
{
    common_options(matches).keep_going(has_flag(matches, KEEP_GOING))
}

/// Returns the options that `filter` was given.
pub fn filter_options(matches: &ArgMatches) -> Options
    ensures { HasFilterOptions matches.now result }
{
    check_options(matches).exclude(has_flag(matches, EXCLUDE))
}

/// Returns the options that `info` was given.
pub fn info_options(matches: &ArgMatches) -> Options
    ensures { HasInfoOptions matches.now result }
{
    common_options(matches)
}

/// The texts of the options of a query, as they were given. Commas separate ids, names or LoDs,
/// which may be empty.
#[derive(Clone, Copy, Debug)]
pub struct QueryTexts<'a> {
    /// Ids of features, separated by commas.
    pub ids: Option<&'a str>,
    /// Names of types of city objects, separated by commas. Those of types of extensions begin with
    /// `+`.
    pub types: Option<&'a str>,
    /// LoDs, separated by commas.
    pub lods: Option<&'a str>,
    /// The edges of a box, `minx,miny,maxx,maxy`.
    pub bbox: Option<&'a str>,
}

/// Returns the texts of the options of a query that a command was given.
pub fn texts_of<'a>(matches: &ArgMatches<'a>) -> QueryTexts<'a>
    ensures { texts_given result ≡ texts_in matches.now }
{
    QueryTexts {
        ids: matches.get_str(IDS),
        types: matches.get_str(TYPES),
        lods: matches.get_str(LODS),
        bbox: matches.get_str(BBOX),
    }
}

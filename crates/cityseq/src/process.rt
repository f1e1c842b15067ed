//! What the system gives the process: how much of the stack, and which files are its input and its
//! output.

use cityseq_command::ask::Ask;
use cityseq_command::stack_limit::stack_limit_in;
use std::fs;
use std::fs::File;
use std::io::Read;
use std::os::unix::fs::MetadataExt;

/// Lines of at most this length need little of the stack.
const SHORT_LINE: u64 = 65_536;

/// The bytes of the stack that a run needs under such a line limit. It is what was measured, and a
/// quarter for the words and the environment of the process, which the system puts there too.
const STACK_OF_SHORT_LINES: u64 = 524_288;

/// The same under any other line limit.
const STACK: u64 = 1_048_576;

/// The same if each city object must be reached, which needs tables of all of them.
const STACK_OF_TREES: u64 = 3_145_728;

/// The file in which the system lists the limits of the process.
const LIMITS: &str = "/proc/self/limits";

/// The bytes of that file that are read. The line of the stack ends after 395 bytes.
const LIMITS_READ: usize = 512;

/// Why a run does not begin.
#[derive(Clone, Copy)]
pub enum Hindrance {
    /// Standard input and standard output are one file, so the run would read what it writes.
    OneFile,
    /// The stack may be too small for the longest lines that the line limit lets through.
    SmallStack,
}

impl Hindrance {
    /// Returns the line for standard error.
    pub fn text(&self) -> &'static str {
        match self {
            Hindrance::OneFile => "standard input and standard output are one file\n",
            Hindrance::SmallStack => "the stack is too small for these options\n",
        }
    }
}

/// The facts that may hinder a run.
#[derive(Clone, Copy)]
pub struct Process {
    is_one_file: bool,
    stack: u64,
}

impl Process {
    /// Returns the facts about this process. It ignores what the system does not say.
    pub fn of(rt: &HostRuntime) -> Process {
        Process {
            is_one_file: is_one_file(rt),
            stack: stack_limit(rt),
        }
    }

    /// Returns whether nothing can hinder a run, whatever it is asked.
    pub fn is_free(&self) -> bool {
        !self.is_one_file && self.stack >= STACK_OF_TREES
    }

    /// Returns why a run with this request does not begin, if it does not.
    pub fn hindrance(&self, ask: &Ask) -> Option<Hindrance> {
        if self.is_one_file {
            Some(Hindrance::OneFile)
        } else if self.stack < stack_for(ask) {
            Some(Hindrance::SmallStack)
        } else {
            None
        }
    }
}

/// Returns the bytes of the stack that a run needs.
fn stack_for(ask: &Ask) -> u64 {
    match ask {
        Ask::Check(limits, options)
        | Ask::Filter(limits, _, options)
        | Ask::Info(limits, options) => { stack_under(limits.line(), options.asks_for_trees()) }
    }
}

/// Returns the same by the line limit, and by whether each city object must be reached.
fn stack_under(line_limit: u64, asks_for_trees: bool) -> u64 {
    if line_limit <= SHORT_LINE {
        STACK_OF_SHORT_LINES
    } else if asks_for_trees {
        STACK_OF_TREES
    } else {
        STACK
    }
}

/// Returns the most bytes that the stack may have, or the greatest number if the system sets no
/// limit or says nothing.
fn stack_limit(rt: &HostRuntime) -> u64 {
    let Ok(mut file) = File::open(rt, LIMITS) else {
        return u64::MAX;
    };
    let mut limits = [0; LIMITS_READ];
    let Ok(count) = file.read(&mut limits) else {
        return u64::MAX;
    };
    match str::from_utf8(&limits[..count]) {
        Ok(limits) => stack_limit_in(limits).unwrap_or(u64::MAX),
        Err(_) => u64::MAX,
    }
}

/// Returns whether standard input and standard output are one regular file that is not empty.
fn is_one_file(rt: &HostRuntime) -> bool {
    let input = fs::metadata(rt, "/proc/self/fd/0");
    let output = fs::metadata(rt, "/proc/self/fd/1");
    match (input, output) {
        (Ok(input), Ok(output)) => {
            input.is_file()
                && input.len() > 0
                && input.dev() == output.dev()
                && input.ino() == output.ino()
        }
        _ => false,
    }
}

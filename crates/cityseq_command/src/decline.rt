//! What the program writes if it does nothing with the stream: the help, or what is wrong with the
//! words, a limit or the query.
ghost use Rattle.clap.specs.Words.{kind_of};
ghost use Rattle.cj_stream.specs.Output.{channel};
ghost use Rattle.cityseq_command.specs.Performed.{Declines, WritesError, WritesFault, WritesHelp, WritesMemory};
ghost use Rattle.cityseq_command.specs.FaultLines.{limit_line, query_line, status_of_query};

use crate::ask::end_of_writing;
use crate::asking::NoAsk;
use crate::fault_lines::{
    WRONG_WORDS, query_status, show, status, write_fault_line, write_limit_fault,
    write_query_fault, write_text,
};
use cj_budget::LimitFault;
use cj_stream::{End, Output, QueryFault};
use clap::Error;
use clap::error::ErrorKind;
use std::alloc::Global;
use std::io::Write;

/// Writes why nothing is done with the stream, and returns the exit status.
pub fn decline<W: Write + Drop, E: Write + Drop>(
    alloc: Global,
    why: &NoAsk,
    out: &mut Output<W>,
    err: &mut Output<E>,
) -> u8
    ensures { Declines why.now result
        (record { out = channel W.contents out.old; err = channel E.contents err.old })
        (record { out = channel W.contents out.new; err = channel E.contents err.new }) }
{
    match why {
        NoAsk::Words(error) => write_error(alloc, error, out, err),
        NoAsk::NoCommand => write_wrong_words("no command: check, filter or info\n", err),
        NoAsk::Limits(fault) => write_declined_limit(*fault, err),
        NoAsk::Query(fault) => write_declined_query(*fault, err),
    }
}

/// Writes the help to `out` if it was asked for, or what is wrong with the words to `err`.
fn write_error<W: Write + Drop, E: Write + Drop>(
    alloc: Global,
    error: &Error,
    out: &mut Output<W>,
    err: &mut Output<E>,
) -> u8
    ensures { WritesError (kind_of error.now) result
        (record { out = channel W.contents out.old; err = channel E.contents err.old })
        (record { out = channel W.contents out.new; err = channel E.contents err.new }) }
{
    if error.kind() == ErrorKind::OutOfMemory {
        return write_no_memory(err);
    }
    let Ok(text) = format!(in alloc; "{error}") else {
        return write_no_memory(err);
    };
    if error.use_stderr() {
        write_wrong_words(&text, err)
    } else {
        write_help(&text, out, err)
    }
}

/// Writes the help to `out` and flushes it. Reports on `err` how that ended.
fn write_help<W: Write + Drop, E: Write + Drop>(
    text: &str,
    out: &mut Output<W>,
    err: &mut Output<E>,
) -> u8
    ensures { WritesHelp result
        (record { out = channel W.contents out.old; err = channel E.contents err.old })
        (record { out = channel W.contents out.new; err = channel E.contents err.new }) }
{
    let said = end_of_writing(write_text(out, text));
    status(show(out.flush(), said, err).end)
}

/// Writes what is wrong with the words, and returns the exit status.
fn write_wrong_words<E: Write + Drop>(text: &str, err: &mut Output<E>) -> u8
    ensures { WritesFault text.now 2 result (channel E.contents err.old) (channel E.contents err.new) }
{
    let _ = write_text(err, text);
    WRONG_WORDS
}

/// Writes which limit is out of its range, and returns the exit status.
fn write_declined_limit<E: Write + Drop>(fault: LimitFault, err: &mut Output<E>) -> u8
    ensures { WritesFault (limit_line fault) 2 result (channel E.contents err.old) (channel E.contents err.new) }
{
    let _ = write_limit_fault(err, fault);
    WRONG_WORDS
}

/// Writes what is wrong with a query, and returns the exit status.
fn write_declined_query<E: Write + Drop>(fault: QueryFault, err: &mut Output<E>) -> u8
    ensures { WritesFault (query_line fault) (status_of_query fault) result (channel E.contents err.old)
        (channel E.contents err.new) }
{
    let _ = write_query_fault(err, fault);
    query_status(fault)
}

/// Writes that memory was refused, and returns the exit status.
pub fn write_no_memory<E: Write + Drop>(err: &mut Output<E>) -> u8
    ensures { WritesMemory result (channel E.contents err.old) (channel E.contents err.new) }
{
    let _ = write_fault_line(err, End::Memory);
    status(End::Memory)
}

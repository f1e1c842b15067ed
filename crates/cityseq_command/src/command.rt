//! The command line: it does what the words ask for, or declines it.
ghost use Rattle.std.specs.Prelude.{◌≡◌, ◌⊎◌, ℕ, List, map, string_bytes};
ghost use Rattle.std.specs.Io.KnownBytes.{Consumes, IsAtEnd};
ghost use Rattle.cj_stream.specs.Output.{channel};
ghost use Rattle.cityseq_command.specs.Performed.{Performs, Declines, asked};
ghost use Rattle.cityseq_command.specs.Words.{AsksFor, MayDecline};
ghost use Rattle.cityseq_command.specs.declared.ask.Ask.{Ask};
ghost use Rattle.cityseq_command.specs.declared.asking.NoAsk.{NoAsk};

use crate::ask::perform;
use crate::asking::read_ask;
use crate::decline::decline;
use cj_stream::Output;
use std::alloc::Global;
use std::io::{Read, Write};

/// How many bytes the program collects before a write to standard output: 16 KiB.
pub const OUTPUT_BUFFER: usize = 16_384;

/// Does what the words ask for, and returns the exit status. The first word is the program's name.
/// If the words are wrong or ask for help, it reads nothing. It ignores a failed write to `err`.
pub fn command<R: Read, W: Write + Drop, E: Write + Drop>(
    alloc: Global,
    words: &[String],
    reader: &mut R,
    out: &mut Output<W>,
    err: &mut Output<E>,
) -> u8
    ensures { ((ask : Ask) × AsksFor (map string_bytes words.now) ask × (r : List ℕ)
        × Consumes (R.remaining reader.old) (R.remaining reader.new) r
        × Performs (asked ask r (reader.new ≡ reader.old) (IsAtEnd (R.remaining reader.new))) result
        (record { out = channel W.contents out.old; err = channel E.contents err.old })
        (record { out = channel W.contents out.new; err = channel E.contents err.new }))
        ⊎ ((reader.new ≡ reader.old) × (why : NoAsk) × MayDecline (map string_bytes words.now) why
        × Declines why result
        (record { out = channel W.contents out.old; err = channel E.contents err.old })
        (record { out = channel W.contents out.new; err = channel E.contents err.new })) }
{
    match read_ask(alloc, words) {
        Ok(ask) => perform(alloc, &ask, reader, out, err),
        Err(why) => decline(alloc, &why, out, err),
    }
}

//! The sink that writes reports of invalid lines to standard error, as they come.
ghost use Rattle.std.specs.Prelude.{◌≡◌, Ok};
ghost use Rattle.cityseq_command.specs.ReportWriter.{loan_name, lent_output, writing as answer_so_far};

use crate::fault_lines::write_refusal;
use cj_stream::{Output, Report, ReportSink, WriteFault};
use std::io::Write;

/// Writes each report to a borrowed output, as the line of a run that ends there. After a failed
/// write it writes nothing more. Only [`WriteReports::written`] shows that failure.
#[derive(Drop)]
pub struct WriteReports<'e, E: Write + Drop> {
    err: &'e mut Output<E>,
    written: Result<(), WriteFault>,
}

impl<'e, E: Write + Drop> WriteReports<'e, E> {
    /// Returns a sink that has written nothing.
    pub fn new(err: &'e mut Output<E>) -> Self
        ensures same_loan { loan_name result ≡ err.entry.ghost_name }
        ensures output { lent_output result ≡ err.old }
        ensures unwritten { answer_so_far result ≡ Ok tt }
    {
        WriteReports {
            err,
            written: Ok(()),
        }
    }

    /// Returns the result of all writes so far.
    pub fn written(&self) -> Result<(), WriteFault>
        ensures { result ≡ answer_so_far self.now }
    {
        self.written
    }
}

impl<E: Write + Drop> ReportSink for WriteReports<'_, E> {
    ghost use Rattle.cityseq_command.specs.ReportWriter.{WritesReport};

    ghost notes = { WritesReport E.contents };

    fn report(&mut self, report: Report) {
        if self.written.is_ok() {
            self.written = write_refusal(self.err, report.line, report.place, report.reason);
        }
    }
}

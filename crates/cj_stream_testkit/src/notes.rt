//! A sink that notes reports as text.
use cj_stream::{Report, ReportSink};
use std::alloc::{AllocError, Global};

/// Notes each report on a line: the line's number, the byte, and the code of the reason. If memory
/// is refused, it notes that it has lost something.
#[derive(Drop)]
pub struct NoteReports {
    alloc: Global,
    pub notes: String,
    pub lost: bool,
}

impl NoteReports {
    /// Returns a sink that has taken nothing.
    pub fn new(alloc: Global) -> NoteReports {
        NoteReports {
            alloc,
            notes: String::new(alloc),
            lost: false,
        }
    }
}

/// Returns a report as it is noted.
pub fn note(alloc: Global, report: Report) -> Result<String, AllocError> {
    let code = report.reason.code();
    format!(in alloc; "{} {} {code}\n", report.line, report.place)
}

impl ReportSink for NoteReports {
    ghost use Rattle.std.specs.Prelude.{⊤};

    ghost notes = { λ a r b. ⊤ };

    fn report(&mut self, report: Report) {
        let taken = match note(self.alloc, report) {
            Ok(text) => self.notes.push_str(&text).is_ok(),
            Err(AllocError) => false,
        };
        self.lost = self.lost || !taken;
    }
}

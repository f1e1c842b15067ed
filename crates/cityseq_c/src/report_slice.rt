//! The sink that writes reports to a slice of the caller.
ghost use Rattle.std.specs.Prelude.{◌≤◌, length};

use crate::finder::Finder;
use cj_stream::{Report, ReportSink};

/// An invalid line after which reading went on, as C has it.
#[repr(C)]
#[derive(Clone, Copy, Debug, PartialEq, Eq)]
pub struct CReport {
    /// The number of the line in the header and the part, from 1.
    pub line: u64,
    /// Where the line begins in the header and the part, in bytes from 0.
    pub begin: u64,
    /// The byte in its content, from 0.
    pub place: u64,
    /// The code of the reason.
    pub code: u64,
}

impl CReport {
    ghost use Rattle.std.specs.Prelude.{◌≡◌};
    ghost use Rattle.cityseq_c.specs.ReportSlice.{finder_text, c_report};

    /// Returns a report as C has it. `finder` finds where its line begins.
    fn of(report: Report, finder: &mut Finder<'_>) -> CReport
        ensures value { result ≡ c_report (finder_text finder.old) report }
        ensures text { finder_text finder.new ≡ finder_text finder.old }
    {
        CReport {
            line: report.line,
            begin: finder.begin(report.line),
            place: report.place,
            code: report.reason.code() as u64,
        }
    }
}

/// A slice of the caller for the reports of a header and a part, and the number of reports in it.
/// Reports that do not fit are left out.
#[derive(Drop)]
pub struct Noted<'a> {
    finder: Finder<'a>,
    reports: &'a mut [CReport],
    count: usize,
    ghost room: { count ≤ length reports.now },
}

impl<'a> Noted<'a> {
    ghost use Rattle.std.specs.Prelude.{◌≡◌};
    ghost use Rattle.cityseq_c.specs.ReportSlice.{count_of, finder_text, noted_loan, noted_room, noted_text};

    /// Returns a sink that has written no report. Lines begin where `finder` finds them.
    pub fn new(finder: Finder<'a>, reports: &'a mut [CReport]) -> Noted<'a>
        ensures text { noted_text result ≡ finder_text finder.entry }
        ensures loan { noted_loan result ≡ reports.entry.ghost_name }
        ensures room { noted_room result ≡ reports.old }
        ensures count { count_of result ≡ 0 }
    {
        Noted {
            finder,
            reports,
            count: 0,
        }
    }
}

impl ReportSink for Noted<'_> {
    ghost use Rattle.cityseq_c.specs.ReportSlice.{NotesOne};

    ghost notes = { NotesOne };

    fn report(&mut self, report: Report) {
        if self.count < self.reports.len() {
            self.reports[self.count] = CReport::of(report, &mut self.finder);
            self.count += 1;
        }
    }
}

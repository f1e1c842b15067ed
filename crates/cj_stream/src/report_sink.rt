//! Sinks of reports: they receive the invalid lines if reading goes on after them. The trait is
//! here, one sink that ignores reports, and one that counts them.
ghost use Rattle.std.specs.Prelude.{◌≡◌};
ghost use Rattle.cj_stream.specs.declared.report_sink.Report.{Report};

use cj_spans::Reason;

/// An invalid line after which reading went on.
#[derive(Clone, Copy, Debug, PartialEq, Eq)]
pub struct Report {
    /// The number of the line, from 1.
    pub line: u64,
    /// The byte in its content, from 0.
    pub place: u64,
    /// Why the line is invalid.
    pub reason: Reason,
}

/// Receives reports one after another, in the order of their lines.
///
/// A sink of reports never fails: it handles itself a report that it cannot pass on.
pub trait ReportSink {
    /// What one report makes of the sink.
    ghost notes: { Self → Report → Self → Type 0 };

    /// Takes the report of a line.
    fn report(&mut self, report: Report)
        ensures { notes self.old report self.new };
}

/// Ignores reports. It suits a stream that ends at the first invalid line, and callers who need
/// only counts.
#[derive(Clone, Copy, Debug, PartialEq, Eq)]
pub struct NoReports;

impl ReportSink for NoReports {
    ghost notes = { λ a r b. b ≡ a };

    fn report(&mut self, _report: Report) {}
}

/// Counts reports. The count stops at 2^64 - 1.
#[derive(Clone, Copy, Debug, PartialEq, Eq)]
pub struct CountReports {
    /// The number of reports that it took.
    pub reports: u64,
}

impl ReportSink for CountReports {
    ghost use Rattle.cj_stream.specs.ReportSink.{CountsReport};

    ghost notes = { CountsReport };

    fn report(&mut self, _report: Report) {
        self.reports = self.reports.saturating_add(1);
    }
}

//! Where the kept lines go: the trait of a sink, one sink that ignores, and one that counts.
//!
//! A sink borrows views of the engine's own lists, so it copies what it wants to keep. Contracts
//! describe any sink by its law, the ghost member of [`LineSink`]. [`crate::Output`] is the sink
//! that writes, and [`crate::TallySink`] the one that tallies.
ghost use Rattle.std.specs.Prelude.{◌≡◌, ◌≤◌, ℕ, OnOk, OnErr};
ghost use Rattle.cj_stream.specs.Item.{header_item, feature_item};
ghost use Rattle.cj_stream.specs.Sink.{SinkContract, HasRisen, never_fails};

use crate::output::WriteFault;
use cj_feature::{Feature, Header};

/// Receives a header and then features, one after another.
///
/// An implementation must return a fault only if the count of device failures rose in that call.
pub trait LineSink {
    /// Its law: what one whole item makes of the sink, what a fault may leave of it, and how often
    /// its device has failed.
    ghost law: { SinkContract Self };

    /// Takes the header. `lf` says whether LF ended its line.
    fn header(&mut self, header: &Header<'_>, lf: bool) -> Result<(), WriteFault>
        ensures ok { OnOk result (law.takes self.old (header_item header.now lf) self.new) }
        ensures fault { OnErr result (law.leaves self.old (header_item header.now lf) self.new) }
        ensures cause { OnErr result (HasRisen (law.failures self.old) (law.failures self.new)) }
        ensures counts { law.failures self.old ≤ law.failures self.new };

    /// Takes a feature. `lf` says whether LF ended its line.
    fn put(&mut self, feature: &Feature<'_>, lf: bool) -> Result<(), WriteFault>
        ensures ok { OnOk result (law.takes self.old (feature_item feature.now lf) self.new) }
        ensures fault { OnErr result (law.leaves self.old (feature_item feature.now lf) self.new) }
        ensures cause { OnErr result (HasRisen (law.failures self.old) (law.failures self.new)) }
        ensures counts { law.failures self.old ≤ law.failures self.new };
}

/// Takes everything, keeps nothing and never fails. It suits a run whose outcome is all that
/// matters.
#[derive(Clone, Copy, Debug, PartialEq, Eq)]
pub struct IgnoreSink;

impl LineSink for IgnoreSink {
    ghost law = { never_fails (λ a i b. b ≡ a) };

    fn header(&mut self, _header: &Header<'_>, _lf: bool) -> Result<(), WriteFault> {
        Ok(())
    }

    fn put(&mut self, _feature: &Feature<'_>, _lf: bool) -> Result<(), WriteFault> {
        Ok(())
    }
}

/// Counts headers and features. A count stops at 2^64 - 1.
#[derive(Clone, Copy, Debug, PartialEq, Eq)]
pub struct CountSink {
    /// The number of headers that it took.
    pub headers: u64,
    /// The number of features that it took.
    pub features: u64,
}

impl LineSink for CountSink {
    ghost use Rattle.cj_stream.specs.CountSink.{CountsItem};

    ghost law = { never_fails CountsItem };

    fn header(&mut self, _header: &Header<'_>, _lf: bool) -> Result<(), WriteFault> {
        self.headers = self.headers.saturating_add(1);
        Ok(())
    }

    fn put(&mut self, _feature: &Feature<'_>, _lf: bool) -> Result<(), WriteFault> {
        self.features = self.features.saturating_add(1);
        Ok(())
    }
}

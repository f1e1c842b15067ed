//! Keeps the bytes of the first line of a stream, and those of a later line that has begun.
//!
//! The first line has a list of its own, since it stays while later lines come and go. So the peaks
//! of both lists add up exactly. Each line is put together here before it is judged, even if it is
//! whole in one piece. So what is held does not depend on how the stream is cut. LF is no content,
//! and is not stored.
//!
//! A later line that is too long may be dropped. The bytes that fit are stored first, however the
//! line is cut. From then on nothing of the line is held, up to its LF.
ghost use Rattle.std.specs.Prelude.{◌≡◌, ◌+◌, ◌<◌, ◌≤◌, ◌^◌, ◌==◌, ◌++◌, [], false, true, length, if◌then◌else◌, OnOk};
ghost use Rattle.std.specs.Prelude.{OnErr, IsTrue};
ghost use Rattle.cj_budget.specs.Bounded.{IsNew, IsWithin, Becomes};

use cj_budget::Bounded;
use std::alloc::Global;

/// A part that does not fit under the line limit.
#[derive(Clone, Copy, Debug, PartialEq, Eq)]
pub struct TooLong;

/// The content of the first line, and that of a later line that has begun. Both lists have the line
/// limit.
#[derive(Drop)]
pub struct LineBuffer {
    pub header: Bounded<u8>,
    pub line: Bounded<u8>,
    /// How many lines were handled.
    pub lines: u64,
    /// Whether the begun line is being dropped, since it is too long.
    pub dropped: bool,
}

impl LineBuffer {
    /// Returns a buffer that holds nothing, under this line limit in bytes. It allocates nothing.
    pub fn new(alloc: Global, limit: usize) -> LineBuffer
        ensures header { IsNew 0 limit result.header }
        ensures line { IsNew 0 limit result.line }
        ensures lines { result.lines ≡ 0 }
        ensures held { result.dropped ≡ false }
    {
        LineBuffer {
            header: Bounded::new(alloc, limit),
            line: Bounded::new(alloc, limit),
            lines: 0,
            dropped: false,
        }
    }

    /// Returns the content of the begun line so far.
    pub fn begun(&self) -> &[u8]
        ensures value { result.now ≡ (if self.now.lines == 0 then self.now.header.elements else
            self.now.line.elements) }
        ensures header { IsWithin self.now.header }
        ensures line { IsWithin self.now.line }
    {
        let (header, line) = (self.header.as_slice(), self.line.as_slice());
        if self.lines == 0 { header } else { line }
    }

    /// Adds a part to the begun line.
    ///
    /// # Errors
    ///
    /// `TooLong` if the part does not fit under the line limit. Then nothing is added.
    pub fn add(&mut self, part: &[u8]) -> Result<(), TooLong>
        requires limits { self.old.line.limit ≡ self.old.header.limit }
        requires first { self.old.lines ≡ 0 → IsTrue self.old.header.reserved }
        requires later { 0 < self.old.lines → IsTrue self.old.line.reserved }
        ensures lines { self.new.lines ≡ self.old.lines }
        ensures same { self.new.dropped ≡ self.old.dropped }
        ensures short { OnOk result (length
            (if self.old.lines == 0 then self.old.header.elements else self.old.line.elements)
            + length part.now ≤ self.old.header.limit) }
        ensures first { OnOk result (self.old.lines ≡ 0
            → Becomes self.old.header (self.old.header.elements ++ part.now) self.new.header
            × (self.new.line ≡ self.old.line)) }
        ensures later { OnOk result (0 < self.old.lines
            → Becomes self.old.line (self.old.line.elements ++ part.now) self.new.line
            × (self.new.header ≡ self.old.header)) }
        ensures err { OnErr result (self.new ≡ self.old) }
        ensures long { OnErr result (self.old.header.limit < length
            (if self.old.lines == 0 then self.old.header.elements else self.old.line.elements) + length part.now) }
    {
        if part.len() > self.header.limit() - self.begun().len() {
            return Err(TooLong);
        }
        if self.lines == 0 {
            self.header.extend_reserved(part);
        } else {
            self.line.extend_reserved(part);
        }
        Ok(())
    }

    /// Drops the later line that has begun, and that this part makes too long. The bytes that fit
    /// are stored first.
    pub fn drop_line(&mut self, part: &[u8])
        requires reserved { IsTrue self.old.line.reserved }
        requires long { self.old.line.limit < length self.old.line.elements + length part.now }
        ensures lines { self.new.lines ≡ self.old.lines }
        ensures dropped { self.new.dropped ≡ true }
        ensures header { self.new.header ≡ self.old.header }
        ensures line { Becomes (record self.old.line { peak = self.old.line.limit }) [] self.new.line }
        ensures rises { self.old.line.peak ≤ self.new.line.peak }
    {
        let room = self.line.limit() - self.line.len();
        self.line.extend_reserved(&part[..room]);
        self.line.clear();
        self.dropped = true;
    }

    /// Ends the begun line, and counts it. The first line stays.
    pub fn end_line(&mut self)
        requires countable { self.old.lines < 2 ^ 62 }
        ensures lines { self.new.lines ≡ self.old.lines + 1 }
        ensures held { self.new.dropped ≡ false }
        ensures header { self.new.header ≡ self.old.header }
        ensures line { Becomes self.old.line [] self.new.line }
    {
        self.lines += 1;
        self.dropped = false;
        self.line.clear();
    }
}

//! Goes along the lines of a part.
//!
//! A sink gets the content of a kept line, and not where the line begins. The cursor finds that: it
//! is the next line with the same content. The cursor skips no kept line, because later lines with
//! the same content get the same verdict.
ghost use Rattle.std.specs.Prelude.{◌+◌, ◌≤◌, length};

use memchr::memchr;

/// Where a line begins in a part, or the end of the part.
#[derive(Clone, Copy)]
pub struct Cursor<'a> {
    part: &'a [u8],
    at: usize,
    line: u64,
    ghost within: { at ≤ length part.now },
    ghost few: { line ≤ at + 2 },
}

impl<'a> Cursor<'a> {
    ghost use Rattle.std.specs.Prelude.{◌≡◌, ◌<◌, ◌↔◌, IsTrue, drop};
    ghost use Rattle.cj_stream.specs.Meaning.Lines.{lines};
    ghost use Rattle.cityseq_c.specs.Features.{Passes, Seeks, place_of};

    /// Returns the beginning of a part. The first line of the part is line 2, after the header.
    pub fn new(part: &'a [u8]) -> Cursor<'a>
        ensures place { place_of result ≡ record { line = 2; begin = 0; left = lines part.now } }
        ensures part { result.part ≡ part.entry }
    {
        Cursor {
            part,
            at: 0,
            line: 2,
        }
    }

    /// Returns the number of the line that begins here.
    pub fn line(&self) -> u64
        ensures { result ≡ (place_of self.now).line }
    {
        self.line
    }

    /// Returns where the line begins in the part, in bytes from 0.
    pub fn begin(&self) -> u64
        ensures { result ≡ (place_of self.now).begin }
    {
        self.at as u64
    }

    /// Returns whether no line is left.
    pub fn is_at_end(&self) -> bool
        ensures { IsTrue result ↔ (length self.now.part.now ≤ self.now.at) }
    {
        self.at >= self.part.len()
    }

    /// Goes past the line that begins here, and returns its content.
    pub fn next_line(&mut self) -> &'a [u8]
        requires { self.old.at < length self.old.part.now }
        ensures part { self.new.part ≡ self.old.part }
        ensures on { self.old.at < self.new.at }
        ensures passes { Passes (place_of self.old) result.now (place_of self.new) }
    {
        let rest = &self.part[self.at..];
        let (length, taken) = match memchr(b'\n', rest) {
            Some(length) => (length, length + 1),
            None => (rest.len(), rest.len()),
        };
        *self = Cursor {
            part: self.part,
            at: self.at + taken,
            line: self.line + 1,
        };
        &rest[..length]
    }

    /// Goes past the next line with this content. Returns its number and where it begins in the
    /// part. None if there is no such line. Then it goes to the end.
    pub fn seek(&mut self, content: &[u8]) -> Option<(u64, u64)>
        ensures { Seeks (place_of self.old) content.now result (place_of self.new) }
    {
        while self.at < self.part.len() {
            let (line, begin) = (self.line, self.at as u64);
            if self.next_line() == content {
                return Some((line, begin));
            }
        }
        None
    }
}

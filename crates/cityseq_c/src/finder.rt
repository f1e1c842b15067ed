//! Finds where the lines of a header and a part begin.
ghost use Rattle.std.specs.Prelude.{◌≡◌};
ghost use Rattle.cityseq_c.specs.Features.{place_of};
ghost use Rattle.cityseq_c.specs.Begins.{AreBehind, IsAlong};

use crate::features::Cursor;

/// Finds where lines begin. It goes on from the last line that it found. So it reads the part only
/// once for lines in order.
#[derive(Drop)]
pub struct Finder<'a> {
    header: &'a [u8],
    part: &'a [u8],
    cursor: Cursor<'a>,
    ghost behind: { AreBehind header.now part.now },
    ghost along: { IsAlong part.now (place_of cursor) },
    ghost same: { cursor.part ≡ part },
}

impl<'a> Finder<'a> {
    ghost use Rattle.std.specs.Prelude.{◌++◌};
    ghost use Rattle.cityseq_c.specs.Begins.{begin_of};
    ghost use Rattle.cityseq_c.specs.Request.{AreCut};
    ghost use Rattle.cityseq_c.specs.ReportSlice.{finder_text};

    /// Returns a finder at the beginning of the part. The header and the part are cut after the
    /// first line.
    pub fn new(header: &'a [u8], part: &'a [u8]) -> Finder<'a>
        requires { AreCut header.now part.now }
        ensures { finder_text result ≡ header.now ++ part.now }
    {
        Finder {
            header,
            part,
            cursor: Cursor::new(part),
        }
    }

    /// Returns where the line of this number begins, in bytes from the beginning of the header. If
    /// there is no such line, it is the end of the part.
    pub fn begin(&mut self, line: u64) -> u64
        ensures begin { result ≡ begin_of (finder_text self.old) line }
        ensures text { finder_text self.new ≡ finder_text self.old }
    {
        if line < 2 {
            return 0;
        }
        if line < self.cursor.line() {
            self.cursor = Cursor::new(self.part);
        }
        while self.cursor.line() < line && !self.cursor.is_at_end() {
            self.cursor.next_line();
        }
        self.header.len() as u64 + self.cursor.begin()
    }
}

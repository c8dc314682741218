// The lines of a file, one after another.
ghost use Rattle.std.specs.Prelude.{◌≡◌};
ghost use Rattle.std.specs.Iterator.{YieldsFirstBy, item_count};
ghost use Rattle.lexer.specs.Forms.{closing};
ghost use Rattle.lexer.specs.Lines.{file_lines, LinesStand};
ghost use Rattle.lexer.specs.LinesLeft.{left, line_of};

use crate::faults::{Cause, Fault};
use crate::marks::{Mark, run};

// A line without the byte that ends it, and whether that byte is there: an unended line is judged only after its fields, so both are wanted.
#[derive(Clone, Copy)]
pub struct Line<'a> {
    pub bytes: &'a [u8],
    pub ended: bool,
}

impl<'a> Line<'a> {
    // The line has its line end, else the fault lies at the line's length.
    pub fn closed(self) -> Result<(), Fault>
        ensures { result ≡ closing self.entry.ended self.entry.bytes.now }
    {
        if !self.ended {
            return Err(Fault {
                cause: Cause::Field,
                place: self.bytes.len(),
            });
        }
        Ok(())
    }
}

// The lines of a file from a place on, as the bytes of the file from there.
#[derive(Drop)]
pub struct Lines<'a> {
    rest: &'a [u8],
}

impl<'a> Lines<'a> {
    // All lines of a file. A file that ends with a line end has no empty line after it.
    pub fn new(file: &'a [u8]) -> Lines<'a>
        ensures { left result ≡ file_lines file.now }
    {
        Lines { rest: file }
    }
}

impl<'a> Iterator for Lines<'a> {
    type Item = Line<'a>;

    ghost next_gives = { YieldsFirstBy line_of left };

    ghost remaining = { item_count left };

    // The next line, or nothing at the file's end.
    fn next(&mut self) -> Option<Line<'a>> {
        if self.rest.is_empty() {
            return None;
        }
        let length = run(self.rest, Mark::LineEnd);
        let ended = length < self.rest.len();
        let (bytes, behind) = self.rest.split_at(length);
        self.rest = match behind {
            [_, rest @ ..] => rest,
            [] => behind,
        };
        Some(Line { bytes, ended })
    }
}

// The lines of a file are what they should be: written one after another they are the file again, no
// line holds a line end, only the last may be unended and is then not empty; and nothing else is so.
pub fn lines_stand() -> u8
    ensures { LinesStand }
{
    0
}

// How a cursor moves.
ghost use Rattle.std.specs.Prelude.{◌≡◌, ◌^◌, ◌<◌, length};
ghost use Rattle.fault_lines.specs.Locations.{on_line};
ghost use Rattle.lexer.specs.Lines.{file_lines};
ghost use Rattle.sheet_file.specs.Cursors.{number, ahead, Moves};
ghost use Rattle.sheet_file.specs.Done.{fault_in};
ghost use Rattle.sheet_file.specs.Plans.{surplus};

use crate::cursors::Cursor;
use fault_lines::locations::on_line;
use items::faults::{FileFault, Located};
use lexer::lines::{Line, Lines};

impl<'a> Cursor<'a> {
    // All lines of a file that is not too long.
    pub(crate) fn new(file: &'a [u8]) -> Cursor<'a>
        requires { length file.now < 2 ^ 32 }
        ensures number { number result ≡ 1 }
        ensures ahead { ahead result ≡ file_lines file.now }
    {
        Cursor {
            lines: Lines::new(file),
            read: 0,
        }
    }

    // What came of the line that was read last, with its number where it is a fault.
    pub(crate) fn judge<T>(&self, outcome: Result<T, FileFault>) -> Result<T, Located>
        ensures { result ≡ on_line self.now.read outcome }
    {
        on_line(self.read, outcome)
    }

    // No line is left.
    pub(crate) fn end(&mut self) -> Result<(), Located>
        ensures { fault_in result ≡ surplus (number self.old) (ahead self.old) }
    {
        if self.lines.next().is_some() {
            return on_line(self.read + 1, Err(FileFault::Extent));
        }
        Ok(())
    }

    // The next line, which must be there.
    pub(crate) fn next(&mut self) -> Result<Line<'a>, Located>
        ensures { Moves self.old result self.new }
    {
        let line = on_line(self.read + 1, self.lines.next().ok_or(FileFault::Extent))?;
        self.read += 1;
        Ok(line)
    }
}

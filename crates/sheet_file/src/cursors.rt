// The lines of a file that are still to be read, with their numbers.
ghost use Rattle.std.specs.Prelude.{◌+◌, ◌^◌, ◌<◌, length};
ghost use Rattle.lexer.specs.LinesLeft.{left};

use lexer::lines::Lines;

// How it moves.
pub(crate) mod calls;

// The lines that are left, and how many were read: the number is wanted too where no line is left, which `enumerate` does
// not tell.
#[derive(Drop)]
pub struct Cursor<'a> {
    lines: Lines<'a>,
    read: usize,
    ghost few: { read + length (left lines) + 1 < 2 ^ 64 },
}

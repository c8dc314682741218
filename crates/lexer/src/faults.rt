// Why a line is refused, and where.
ghost use Rattle.std.specs.Prelude.{◌≡◌};
ghost use Rattle.lexer.specs.Causes.{cause_number};

// Why a field is refused.
#[derive(Clone, Copy, PartialEq, Eq, Debug)]
pub enum Cause {
    // It is not the keyword that belongs there.
    Keyword = 8,
    // It is no number, or none of those that may stand there.
    Number = 9,
    // It is missing or one too many, or the line's end is missing.
    Field = 10,
}

impl Cause {
    // The number by which a cause is reported.
    pub fn number(self) -> u8
        ensures { result ≡ cause_number self }
    {
        self as u8
    }
}

// A refused line: why, and at which offset of the line.
#[derive(Clone, Copy, PartialEq, Eq, Debug)]
pub struct Fault {
    pub cause: Cause,
    pub place: usize,
}

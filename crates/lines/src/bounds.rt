// Numbers below a bound.
ghost use Rattle.lines.specs.Bounds.{number_below};

use lexer::faults::Cause;
use lexer::kinds::Kind;
use lexer::numerals::number;

// A number below `bound`, as the index of one of so many things; below 0 there is none.
#[derive(Clone, Copy)]
pub struct Below {
    pub bound: u16,
}

impl Kind for Below {
    type Value = u16;

    ghost worth = { λ k. (number_below k.bound).worth };

    ghost fails = { λ k. (number_below k.bound).fails };

    fn value(&self, bytes: &[u8]) -> Option<u16> {
        number(bytes).filter(|value| *value < self.bound)
    }

    fn cause(&self) -> Cause {
        Cause::Number
    }
}

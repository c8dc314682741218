// Kinds of field: what the bytes of a field are worth.
ghost use Rattle.std.specs.Prelude.{◌≡◌, ℕ, List, Option};
ghost use Rattle.lexer.specs.declared.faults.Cause.{Cause};
ghost use Rattle.lexer.specs.Forms.{a_number, number_within, word};

use crate::faults::Cause;
use crate::numerals::number;

// A kind of field, as a number or a side.
pub trait Kind {
    // What a field of this kind stands for.
    type Value;

    // What the bytes of a field are worth, and nothing where they are not of this kind.
    ghost worth: { Self → List ℕ → Option Self.Value };

    // Why a field that is not of this kind is refused.
    ghost fails: { Self → Cause };

    // The worth of these bytes.
    fn value(&self, bytes: &[u8]) -> Option<Self::Value>
        ensures { result ≡ worth self.now bytes.now };

    // The cause of bytes that are worth nothing.
    fn cause(&self) -> Cause
        ensures { result ≡ fails self.now };
}

// A number.
#[derive(Clone, Copy)]
pub struct Number;

impl Kind for Number {
    type Value = u16;

    ghost worth = { λ _. a_number.worth };

    ghost fails = { λ _. a_number.fails };

    fn value(&self, bytes: &[u8]) -> Option<u16> {
        number(bytes)
    }

    fn cause(&self) -> Cause {
        Cause::Number
    }
}

// A number from `low` to `high`.
#[derive(Clone, Copy)]
pub struct Within {
    pub low: u16,
    pub high: u16,
}

impl Kind for Within {
    type Value = u16;

    ghost worth = { λ k. (number_within k.low k.high).worth };

    ghost fails = { λ k. (number_within k.low k.high).fails };

    fn value(&self, bytes: &[u8]) -> Option<u16> {
        number(bytes).filter(|value| self.low <= *value && *value <= self.high)
    }

    fn cause(&self) -> Cause {
        Cause::Number
    }
}

// Just this keyword, byte for byte.
#[derive(Clone, Copy)]
pub struct Word<'w> {
    pub text: &'w [u8],
}

impl<'w> Kind for Word<'w> {
    type Value = ();

    ghost worth = { λ k. (word k.text.now).worth };

    ghost fails = { λ k. (word k.text.now).fails };

    fn value(&self, bytes: &[u8]) -> Option<()> {
        (bytes == self.text).then_some(())
    }

    fn cause(&self) -> Cause {
        Cause::Keyword
    }
}

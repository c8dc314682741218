// The advances of bytes, in whole units: what a metrics is, one advance for all bytes, and a table of widths at a size.
#![tactic(auto)]

ghost use Rattle.std.specs.Prelude.{◌≡◌};
ghost use Rattle.metrics.specs.Refusal.{unfit};

// What a metrics is asked: the advance of a byte.
pub mod advances;
// One advance for every byte.
pub mod cells;
// Advances worked by hand.
pub mod examples;
// Thousandths of a unit to whole units.
pub mod rounding;
// A width for each byte, at a size.
pub mod tables;

// The one refusal: an advance, a size, a table's width or its length that is out of range.
#[derive(Clone, Copy, PartialEq, Eq, Debug)]
pub struct Unfit;

impl Unfit {
    const NUMBER: u8 = 4;

    // The number by which the refusal is known outside.
    pub fn number(self) -> u8
        ensures { result ≡ unfit }
    {
        Self::NUMBER
    }
}

// Thousandths of a unit to whole units, in this one place.
ghost use Rattle.std.specs.Prelude.{◌≡◌};
ghost use Rattle.metrics.specs.Rounding.{rounded, RoundingIsNearest};

// The nearest number of units; an exact half goes upward.
pub fn rounded(thousandths: u32) -> u32
    ensures { result ≡ rounded thousandths }
{
    let units = thousandths / 1000;
    if thousandths % 1000 < 500 {
        units
    } else {
        units + 1
    }
}

// What `rounded` answers is the nearest, and there is one such number.
pub fn rounding_is_nearest() -> u8
    ensures { RoundingIsNearest }
{
    0
}

// The range of widths and heights.
ghost use Rattle.shapes.specs.Made.{in_range};
ghost use Rattle.std.specs.Prelude.{◌≡◌};

// The greatest width and height.
pub const MOST_UNITS: u32 = 4096;

// Whether `n` can be a width or a height.
pub fn in_range(n: u32) -> bool
    ensures { result ≡ in_range n }
{
    (1..=MOST_UNITS).contains(&n)
}

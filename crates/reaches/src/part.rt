// A part of a box on one row.
ghost use Rattle.std.specs.Prelude.{◌+◌, ◌^◌, ◌<◌, ◌≤◌};

use shapes::sides::Side;

// What is e units wide, from its side on, of a box w wide at x: a panel's box on a row, or its area there.
#[derive(Clone, Copy)]
pub struct Part {
    pub side: Side,
    pub x: u32,
    pub w: u32,
    pub e: u32,
    // It is no wider than its box, whose right edge is a number of 32 bits.
    ghost inside: { e ≤ w },
    ghost small: { x + w < 2 ^ 32 },
}

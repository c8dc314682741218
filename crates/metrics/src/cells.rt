// One advance for every byte.
ghost use Rattle.std.specs.Prelude.{◌≤◌};

pub mod calls;

// A metrics whose bytes all have one advance, of 1 to 255 units.
#[derive(Clone, Copy)]
pub struct Cell {
    advance: u8,
    ghost least: { 1 ≤ advance },
    ghost most: { advance ≤ 255 },
}

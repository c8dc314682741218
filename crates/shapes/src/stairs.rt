// The staircase, with its limits.
ghost use Rattle.std.specs.Prelude.{◌≡◌, true};
ghost use Rattle.shapes.specs.Staircase.{rows_of, stairs_fit};
ghost use Rattle.shapes.specs.Steps.{steps_in};

mod held;
pub mod make;
pub mod shape;

pub use crate::stairs::held::Steps;

// The most steps of a staircase.
pub const MOST_STEPS: usize = 16;

// Some rows with one extent.
#[derive(Clone, Copy, Default)]
pub struct Step {
    pub rows: u16,
    pub extent: u16,
}

// Steps that fit the width. Their rows sum to the height.
#[derive(Clone, Copy)]
pub struct Stairs {
    width: u32,
    height: u32,
    steps: Steps,
    ghost fits: { stairs_fit width (steps_in steps) ≡ true },
    ghost sum: { height ≡ rows_of (steps_in steps) },
}

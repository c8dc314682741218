// The plain box, with its ranges.
ghost use Rattle.shapes.specs.Made.{in_range};
ghost use Rattle.std.specs.Prelude.{◌≡◌, true};

pub mod make;
pub mod shape;

// A box: on each of its rows it reaches in by its whole width.
#[derive(Clone, Copy)]
pub struct Plain {
    width: u32,
    height: u32,
    ghost broad: { in_range width ≡ true },
    ghost high: { in_range height ≡ true },
}

// The staircases that a file names, in the order of their lines.
ghost use Rattle.std.specs.Prelude.{◌≡◌, ◌≤◌, length};

use shapes::stairs::Stairs;

// How to keep them and take them.
pub mod calls;

// The most staircases of a file.
pub const MOST_SHAPES: usize = 16;

// The first `count` of `stairs`.
// The count stands beside an array because a library has no heap and a shelf is copied, which the kit's `ArrayVec` is not.
// It is no list of any kind, with `shapes::stairs::Steps` as another: such a list would want a blank of its kind, which a
// staircase has not.
#[derive(Clone, Copy)]
pub struct Shelf {
    stairs: [Stairs; MOST_SHAPES],
    count: usize,
    ghost long: { length stairs ≡ 16 },
    ghost few: { count ≤ length stairs },
}

// Up to 16 steps in an array.
ghost use Rattle.std.specs.Prelude.{◌≤◌};
ghost use Rattle.shapes.specs.Staircase.{most_steps};

use crate::stairs::{MOST_STEPS, Step};

mod list;
mod sums;

// The first `count` of `steps`, from the top down.
// The count stands beside an array because a library has no heap and shapes are copied, which the kit's `ArrayVec` is not.
#[derive(Clone, Copy)]
pub struct Steps {
    count: usize,
    steps: [Step; MOST_STEPS],
    ghost few: { count ≤ most_steps },
}

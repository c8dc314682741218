// How a staircase is made.
ghost use Rattle.shapes.specs.Made.{answered};
ghost use Rattle.shapes.specs.Models.{stairs_model};
ghost use Rattle.shapes.specs.Staircase.{make_stairs};
ghost use Rattle.std.specs.Prelude.{◌≡◌};

use crate::NoShape;
use crate::ranges::in_range;
use crate::stairs::{Stairs, Step, Steps};

impl Stairs {
    // The staircase of this width, 1 to 4,096, and these 1 to 16 steps of 1 to 4,096 rows in all.
    // Each step has a row or more, and an extent of at most the width.
    pub fn new(width: u32, steps: &[Step]) -> Result<Stairs, NoShape>
        ensures { answered stairs_model result ≡ make_stairs width steps.now }
    {
        let steps = Steps::new(steps).ok_or(NoShape)?;
        let height = steps.rows();
        if in_range(width) && !steps.as_slice().is_empty() && steps.fit(width) && in_range(height) {
            Ok(Stairs {
                width,
                height,
                steps,
            })
        } else {
            Err(NoShape)
        }
    }
}

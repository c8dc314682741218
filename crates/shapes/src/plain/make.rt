// How a plain box is made.
ghost use Rattle.shapes.specs.Box.{make_box};
ghost use Rattle.shapes.specs.Made.{answered};
ghost use Rattle.shapes.specs.Models.{plain_model};
ghost use Rattle.std.specs.Prelude.{◌≡◌};

use crate::NoShape;
use crate::plain::Plain;
use crate::ranges::in_range;

impl Plain {
    // The box of this width and height, each 1 to 4,096.
    pub fn new(width: u32, height: u32) -> Result<Plain, NoShape>
        ensures { answered plain_model result ≡ make_box width height }
    {
        if in_range(width) && in_range(height) {
            Ok(Plain { width, height })
        } else {
            Err(NoShape)
        }
    }
}

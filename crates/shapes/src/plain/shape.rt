// What a plain box answers.
ghost use Rattle.shapes.specs.Models.{plain_model};
ghost use Rattle.shapes.specs.Reals.{plain_real};

use crate::Shape;
use crate::plain::Plain;

impl Shape for Plain {
    ghost model = { plain_model };

    ghost real = { λ b. plain_real b.width b.height b.broad b.high };

    fn width(&self) -> u32 {
        self.width
    }

    fn height(&self) -> u32 {
        self.height
    }

    fn extent(&self, k: u32) -> u32 {
        if k < self.height { self.width } else { 0 }
    }
}

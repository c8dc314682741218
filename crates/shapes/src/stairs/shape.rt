// What a staircase answers.
ghost use Rattle.shapes.specs.Models.{stairs_model};
ghost use Rattle.shapes.specs.Reals.{stairs_real};
ghost use Rattle.shapes.specs.Steps.{steps_in};

use crate::Shape;
use crate::stairs::Stairs;

impl Shape for Stairs {
    ghost model = { stairs_model };

    ghost real = { λ s. stairs_real s.width (steps_in s.steps) s.fits };

    fn width(&self) -> u32 {
        self.width
    }

    fn height(&self) -> u32 {
        self.height
    }

    fn extent(&self, k: u32) -> u32 {
        self.steps.extent(k)
    }
}

#[cfg(test)]
mod tests {
    use super::*;
    use crate::stairs::Step;
    use std::test::Fail;

    #[test]
    fn each_row_has_its_steps_extent(rt: HostRuntime) -> Result<(), Fail> {
        let steps = [Step { rows: 2, extent: 3 }, Step { rows: 1, extent: 5 }];
        let stairs = Stairs::new(5, &steps)?;
        assert_eq!(rt; stairs.height(), 3);
        assert_eq!(rt; stairs.extent(1), 3);
        assert_eq!(rt; stairs.extent(2), 5);
        assert_eq!(rt; stairs.extent(3), 0, "below the bottom");
        Ok(())
    }
}

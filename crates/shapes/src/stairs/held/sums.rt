// What steps give: their rows, an extent, whether they fit a width.
ghost use Rattle.std.specs.Prelude.{◌≡◌};
ghost use Rattle.shapes.specs.Staircase.{extent_at, rows_of, step_fits, steps_fit};
ghost use Rattle.shapes.specs.Steps.{steps_in};

use crate::stairs::{Step, Steps};

impl Step {
    // Whether it has a row or more, and reaches no further in than the width.
    fn fits(self, width: u32) -> bool
        ensures { result ≡ step_fits width self }
    {
        1 <= self.rows && u32::from(self.extent) <= width
    }
}

impl Steps {
    // The rows of all the steps.
    pub(crate) fn rows(&self) -> u32
        ensures { result ≡ rows_of (steps_in self.now) }
    {
        self.as_slice()
            .iter()
            .map(|step| u32::from(step.rows))
            .sum()
    }

    // The extent of row `k`: that of its step, and 0 past the last.
    pub(crate) fn extent(&self, k: u32) -> u32
        ensures { result ≡ extent_at (steps_in self.now) k }
    {
        // By a `for`, since it stops at one step, with what is left of the rows.
        let mut rest = k;
        for step in self.as_slice() {
            let rows = u32::from(step.rows);
            if rest < rows {
                return u32::from(step.extent);
            }
            rest -= rows;
        }
        0
    }

    // Whether each of the steps fits the width.
    pub(crate) fn fit(&self, width: u32) -> bool
        ensures { result ≡ steps_fit width (steps_in self.now) }
    {
        self.as_slice().iter().all(|step| step.fits(width))
    }
}

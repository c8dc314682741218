// Making a cell, and what it answers as a metrics.
ghost use Rattle.metrics.specs.Making.{MakesCell};

use crate::Unfit;
use crate::advances::Metrics;
use crate::cells::Cell;

impl Cell {
    // The metrics whose bytes all have this advance; refuses one that isn't 1 to 255.
    pub fn new(advance: u16) -> Result<Cell, Unfit>
        ensures { MakesCell advance result }
    {
        let advance = u8::try_from(advance).map_err(|_| Unfit)?;
        if advance < 1 {
            return Err(Unfit);
        }
        Ok(Cell { advance })
    }
}

impl Metrics for Cell {
    ghost advances = { λ m _. m.advance };

    ghost ranges = { λ m. record { least = λ _ _. m.least; most = λ _ _. m.most } };

    fn advance(&self, _byte: u8) -> u8 {
        self.advance
    }
}

// Making a table.
ghost use Rattle.std.specs.Prelude.{Decides};
ghost use Rattle.metrics.specs.Making.{MakesHouse, MakesTable};
ghost use Rattle.metrics.specs.Width.{FitWidths};

use crate::Unfit;
use crate::tables::Table;
use crate::tables::house::WIDTHS;

// Whether each width is 1 to 2,000.
fn all_fit(widths: &[u16]) -> bool
    ensures { Decides result (FitWidths widths.now) }
{
    widths.iter().all(|width| (1..=2000).contains(width))
}

impl Table {
    // The table of these widths at this size; refuses other than 95 widths of 1 to 2,000 and a size of 1 to 120.
    pub fn new(widths: &[u16], size: u16) -> Result<Table, Unfit>
        ensures { MakesTable widths.now size result }
    {
        if !(1..=120).contains(&size) || !all_fit(widths) {
            return Err(Unfit);
        }
        let widths = <[u16; 95]>::try_from(widths).map_err(|_| Unfit)?;
        Ok(Table { widths, size })
    }

    // The house table at this size; refuses a size that isn't 1 to 120.
    pub fn house(size: u16) -> Result<Table, Unfit>
        ensures { MakesHouse size result }
    {
        Table::new(&WIDTHS, size)
    }
}

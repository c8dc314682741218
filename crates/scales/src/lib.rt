// A metrics of one of the two families, itself a metrics, and the line of a file that asks for one.
#![tactic(auto)]

// The line that asks for a metrics.
pub mod headings;

// The names of the families.
pub mod names;

ghost use Rattle.std.specs.Prelude.{◌≡◌};
ghost use Rattle.scales.specs.Scales.{family_advances, scale_advances, made, Makes};
ghost use Rattle.scales.specs.Ranges.{scale_ranges};

use metrics::Unfit;
use metrics::advances::Metrics;
use metrics::cells::Cell;
use metrics::tables::Table;

// The two families of metrics.
#[derive(Clone, Copy)]
pub enum Family {
    // One advance for every byte.
    Cell,
    // The house table, at a size.
    Table,
}

// A metrics of one of the families.
#[derive(Clone, Copy)]
pub enum Scale {
    Cell(Cell),
    Table(Table),
}

impl Scale {
    // The metrics of this family and number: the advance of its cell, 1 to 255, or the size of its table, 1 to 120.
    pub fn new(family: Family, number: u16) -> Result<Scale, Unfit>
        ensures advances { made result ≡ family_advances family number }
        ensures kind { Makes family number result }
    {
        match family {
            Family::Cell => Ok(Scale::Cell(Cell::new(number)?)),
            Family::Table => Ok(Scale::Table(Table::house(number)?)),
        }
    }
}

impl Metrics for Scale {
    ghost advances = { scale_advances };

    ghost ranges = { scale_ranges };

    fn advance(&self, byte: u8) -> u8 {
        match self {
            Scale::Cell(cell) => cell.advance(byte),
            Scale::Table(table) => table.advance(byte),
        }
    }
}

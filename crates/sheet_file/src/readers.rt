// What single lines of a file say, and what is made of that.
ghost use Rattle.std.specs.Prelude.{◌≡◌, ◌≤◌, MatchResult};
ghost use Rattle.lexer.specs.LinesLeft.{line_of};
ghost use Rattle.scales.specs.Scales.{scale_advances};
ghost use Rattle.shapes.specs.Models.{stairs_model};
ghost use Rattle.sheet_file.specs.Plans.{formed, sheet_of, metric_of, stairs_of};
ghost use Rattle.sheet_file.specs.Turns.{mapped};

use items::faults::FileFault;
use lexer::faults::Fault;
use lexer::lines::Line;
use lines::flights::steps_line;
use lines::headings::sheet_line;
use scales::Scale;
use scales::headings::metric_line;
use shapes::stairs::Stairs;
use sheet::fault;
use sheet::sizes::SheetSize;

// A line that is not of its form, as a fault of the file.
pub(crate) fn formed<T>(res: Result<T, Fault>) -> Result<T, FileFault>
    ensures { result ≡ formed res }
{
    Ok(res?)
}

// The size of the sheet, where it can be made over so many cells.
pub(crate) fn size_of(line: Line<'_>, cells: usize) -> Result<SheetSize, FileFault>
    ensures { result ≡ sheet_of cells (line_of line.entry) }
{
    let said = sheet_line(line)?;
    let size = SheetSize {
        width: u32::from(said.width),
        height: u32::from(said.height),
        line: u32::from(said.line),
    };
    fault(size, cells).map_or(Ok(size), |refusal| Err(FileFault::from(refusal)))
}

// The metrics that texts are measured by.
pub(crate) fn scale_of(line: Line<'_>) -> Result<Scale, FileFault>
    ensures { mapped scale_advances result ≡ metric_of (line_of line.entry) }
{
    Ok(metric_line(line)?.scale()?)
}

// A staircase.
pub(crate) fn stairs_of(line: Line<'_>) -> Result<Stairs, FileFault>
    ensures { mapped stairs_model result ≡ stairs_of (line_of line.entry) }
{
    let said = steps_line(line)?;
    Ok(Stairs::new(u32::from(said.width), said.steps.as_slice())?)
}

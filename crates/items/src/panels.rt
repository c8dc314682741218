// A panel that a line asks for.
ghost use Rattle.std.specs.List.{slice_get};
ghost use Rattle.shapes.specs.Box.{make_box};
ghost use Rattle.shapes.specs.Made.{answered};
ghost use Rattle.items.specs.Asked.{Asked};
ghost use Rattle.items.specs.Calls.{panel_call};
ghost use Rattle.items.specs.Shelves.{kept};
ghost use Rattle.items.specs.Spares.{Keeps};

use crate::faults::FileFault;
use crate::shelves::Shelf;
use lines::items::{PlainLine, ShapedLine};
use shapes::orders::Order;
use shapes::plain::Plain;
use shapes::sides::{Clear, Side};
use shapes::{NoShape, Shape};
use sheet::sheet::Sheet;

// Places a panel of this shape, if there is one. What the sheet keeps is said at each call here and below: it is of the sheet
// before and after, which no type can say.
fn place<S: Shape + Drop>(
    sheet: &mut Sheet<'_>,
    shape: Result<S, NoShape>,
    side: Side,
    clear: Clear,
) -> Result<(), FileFault>
    ensures keeps { Keeps sheet.old sheet.new }
    ensures asked { Asked (panel_call side clear (answered S.model shape)) result sheet.old sheet.new }
{
    let shape = shape?;
    sheet.panel(Order { shape, side, clear })?;
    Ok(())
}

// A plain box.
pub(crate) fn plain(sheet: &mut Sheet<'_>, panel: PlainLine) -> Result<(), FileFault>
    ensures keeps { Keeps sheet.old sheet.new }
    ensures asked { Asked (panel_call panel.side panel.clear (make_box panel.width panel.height)) result sheet.old sheet.new }
{
    let shape = Plain::new(u32::from(panel.width), u32::from(panel.height));
    place(sheet, shape, panel.side, panel.clear)
}

// One of the staircases that the file names.
pub(crate) fn shaped(
    sheet: &mut Sheet<'_>,
    shelf: &Shelf,
    panel: ShapedLine,
) -> Result<(), FileFault>
    ensures keeps { Keeps sheet.old sheet.new }
    ensures asked { Asked (panel_call panel.side panel.clear (slice_get (kept shelf.now) panel.index)) result sheet.old sheet.new }
{
    let shape = shelf.get(panel.index).ok_or(NoShape);
    place(sheet, shape, panel.side, panel.clear)
}

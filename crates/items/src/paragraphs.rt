// A line of a paragraph: what it asks for, and what comes of it.
ghost use Rattle.std.specs.Prelude.{length};
ghost use Rattle.lexer.specs.LinesLeft.{line_of};
ghost use Rattle.items.specs.Asked.{Asked};
ghost use Rattle.items.specs.Items.{item_call};
ghost use Rattle.items.specs.Shelves.{kept};
ghost use Rattle.items.specs.Spares.{Keeps};

use crate::faults::FileFault;
use crate::panels::{plain, shaped};
use crate::shelves::Shelf;
use crate::texts::flow;
use lexer::lines::Line;
use lines::items::{Item, item_line};
use metrics::advances::Metrics;
use sheet::sheet::Sheet;
use text::{Run, Word};

// Makes the call that the line of an item asks for. A text is measured into these records and cells. They stay two slices,
// here and above: a slice that is lent keeps its length over a call with no clause, and a struct of two would need one.
pub fn set_item<M: Metrics>(
    sheet: &mut Sheet<'_>,
    metrics: &M,
    shelf: &Shelf,
    line: Line<'_>,
    words: &mut [Word],
    runs: &mut [Run],
) -> Result<(), FileFault>
    ensures keeps { Keeps sheet.old sheet.new }
    ensures asked { Asked (item_call (M.advances metrics.now) (kept shelf.now) (length words.old) (length runs.old) (line_of line.entry)) result sheet.old sheet.new }
{
    let item = item_line(line, shelf.count())?;
    match item {
        Item::Text(text) => flow(sheet, metrics, text, words, runs),
        Item::Plain(panel) => plain(sheet, panel),
        Item::Shaped(panel) => shaped(sheet, shelf, panel),
    }
}

// The lines before the paragraphs.
ghost use Rattle.std.specs.Prelude.{◌≡◌, ◌≤◌, [], IfOk};
ghost use Rattle.scales.specs.Scales.{scale_advances};
ghost use Rattle.shapes.specs.Models.{stairs_model};
ghost use Rattle.items.specs.Shelves.{most_shapes};
ghost use Rattle.sheet_file.specs.Cursors.{number};
ghost use Rattle.sheet_file.specs.Bodies.{ShelfTold, BodyTold};
ghost use Rattle.sheet_file.specs.Plans.{sheet_of, metric_of, shapes_count, stairs_of, paras_count};
ghost use Rattle.sheet_file.specs.Turns.{Took};

use crate::cursors::Cursor;
use crate::desks::Desk;
use crate::readers::{formed, scale_of, size_of, stairs_of};
use items::faults::Located;
use items::shelves::{MOST_SHAPES, Shelf};
use lines::counts::{paragraphs_line, shapes_line};
use scales::Scale;
use shapes::stairs::Stairs;
use sheet::sizes::SheetSize;

// The most paragraphs of a file.
const MOST_PARAGRAPHS: u16 = 256;

// The size of the sheet, where it can be made over so many cells.
// This function and its five likes take two steps each: one function over a closure would want a proof of what it reads at each.
pub(crate) fn next_size(cursor: &mut Cursor<'_>, cells: usize) -> Result<SheetSize, Located>
    ensures { Took (λ z. z) (sheet_of cells) cursor.old result cursor.new }
{
    let line = cursor.next()?;
    cursor.judge(size_of(line, cells))
}

// The metrics that texts are measured by.
fn next_scale(cursor: &mut Cursor<'_>) -> Result<Scale, Located>
    ensures { Took scale_advances metric_of cursor.old result cursor.new }
{
    let line = cursor.next()?;
    cursor.judge(scale_of(line))
}

// How many staircases the file names. The cast is of a constant.
fn next_shapes(cursor: &mut Cursor<'_>) -> Result<u16, Located>
    ensures took { Took (λ n. n) shapes_count cursor.old result cursor.new }
    ensures few { IfOk result (λ n. n ≤ most_shapes) }
{
    let line = cursor.next()?;
    cursor.judge(formed(shapes_line(line, MOST_SHAPES as u16)))
}

// The next staircase.
fn next_stairs(cursor: &mut Cursor<'_>) -> Result<Stairs, Located>
    ensures { Took stairs_model stairs_of cursor.old result cursor.new }
{
    let line = cursor.next()?;
    cursor.judge(stairs_of(line))
}

// How many paragraphs there are.
fn next_paragraphs(cursor: &mut Cursor<'_>) -> Result<u16, Located>
    ensures { Took (λ n. n) paras_count cursor.old result cursor.new }
{
    let line = cursor.next()?;
    cursor.judge(formed(paragraphs_line(line, MOST_PARAGRAPHS)))
}

// The staircases of the next `count` lines.
fn shelve(cursor: &mut Cursor<'_>, count: u16) -> Result<Shelf, Located>
    requires { count ≤ most_shapes }
    ensures { ShelfTold count cursor.old result cursor.new }
{
    let mut shelf = Shelf::new();
    for _ in 0..count {
        let stairs = next_stairs(cursor)?;
        shelf.put(stairs);
    }
    Ok(shelf)
}

// What the paragraphs are read against, and how many they are.
#[derive(Clone, Copy)]
pub(crate) struct Body {
    pub(crate) desk: Desk,
    pub(crate) count: u16,
}

// The lines from the second to the one that counts the paragraphs, for a sheet of this width.
pub(crate) fn next_body(width: u32, cursor: &mut Cursor<'_>) -> Result<Body, Located>
    requires { number cursor.old ≡ 2 }
    ensures { BodyTold width cursor.old result cursor.new }
{
    let scale = next_scale(cursor)?;
    let shapes = next_shapes(cursor)?;
    let shelf = shelve(cursor, shapes)?;
    let count = next_paragraphs(cursor)?;
    let desk = Desk {
        width,
        scale,
        shelf,
    };
    Ok(Body { desk, count })
}

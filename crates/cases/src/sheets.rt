// Calls on a sheet.
ghost use Rattle.std.specs.Prelude.{◌≡◌, Some};
ghost use Rattle.sheet.specs.Sheets.{open_number};

use metrics::cells::Cell;
use places::parts::{Place, Span};
use reaches::reach::Reach;
use rules::boxes::{BoxRecord, LineBox};
use shapes::orders::Order;
use shapes::plain::Plain;
use shapes::sides::{Clear, Side};
use shapes::stairs::{Stairs, Step};
use sheet::answers::Flowed;
use sheet::sheet::Sheet;
use sheet::sizes::SheetSize;
use sheet::slips::Slip;
use std::test::Fail;
use text::{Run, Word, measure};

// The size of a sheet, with lines of 10 rows.
const SIZE: SheetSize = SheetSize {
    width: 100,
    height: 60,
    line: 10,
};

// The margins of a whole sheet.
const WHOLE: Span = Span { from: 0, to: 100 };

const NO_BOX: BoxRecord = BoxRecord::Line(LineBox {
    x: 0,
    y: 0,
    width: 0,
    words: 0,
});

// Ends the open paragraph by its slip, which is never refused.
fn spend(sheet: &mut Sheet<'_>, own: Slip)
    requires { open_number sheet.old ≡ Some own.number }
{
    sheet.end(own).unwrap();
}

// Places a box that clears nothing.
fn place(sheet: &mut Sheet<'_>, side: Side, width: u32, height: u32) -> Option<Place>
    ensures { open_number sheet.new ≡ open_number sheet.old }
{
    let order = Order {
        shape: Plain::new(width, height).ok()?,
        side,
        clear: Clear::None,
    };
    sheet.panel(order).ok()
}

fn at(x: u32, y: u32) -> Option<Place> {
    Some(Place { x, y })
}

#[test]
fn no_panel_climbs_above_an_earlier_one(rt: HostRuntime) -> Result<(), Fail> {
    let mut cells = [Reach::default(); 128];
    let mut list = [NO_BOX; 3];
    let mut sheet = Sheet::new(SIZE, &mut cells, &mut list);
    let slip = sheet.open(WHOLE, Clear::None)?;
    let first = place(&mut sheet, Side::Left, 60, 10);
    let second = place(&mut sheet, Side::Left, 50, 10);
    let third = place(&mut sheet, Side::Left, 40, 10);
    let fourth = place(&mut sheet, Side::Left, 10, 10);
    spend(&mut sheet, slip);
    assert_eq!(rt; first, at(0, 0));
    assert_eq!(rt; second, at(0, 10));
    assert_eq!(rt; third, at(50, 10));
    assert!(rt; fourth.is_none());
    assert_eq!(rt; sheet.totals().panels, 3);
    Ok(())
}

// A text of the given bytes, of 5 units each, is set from its first word on.
fn flow(sheet: &mut Sheet<'_>, metrics: Cell, bytes: &[u8]) -> Flowed
    ensures { open_number sheet.new ≡ open_number sheet.old }
{
    let mut words = [Word::default(); 8];
    let mut runs = [Run::default(); 16];
    let text = measure(&metrics, bytes, &mut words, &mut runs);
    sheet.flow(&text, 0)
}

// The record of a line at this place, so wide, with so many words.
fn line(x: u32, y: u32, width: u32, words: u32) -> Option<BoxRecord> {
    Some(BoxRecord::Line(LineBox { x, y, width, words }))
}

#[test]
fn text_runs_round_a_staircase_met_in_mid_line(rt: HostRuntime) -> Result<(), Fail> {
    let metrics = Cell::new(5)?;
    let shape = Stairs::new(
        30,
        &[
            Step {
                rows: 10,
                extent: 30,
            },
            Step {
                rows: 10,
                extent: 15,
            },
        ],
    )?;
    let mut cells = [Reach::default(); 128];
    let mut list = [NO_BOX; 5];
    let mut sheet = Sheet::new(SIZE, &mut cells, &mut list);
    let slip = sheet.open(WHOLE, Clear::None)?;
    let begun = flow(&mut sheet, metrics, b"one two");
    let stairs = sheet.panel(Order {
        shape,
        side: Side::Left,
        clear: Clear::None,
    });
    let right = place(&mut sheet, Side::Right, 40, 15);
    let set = flow(&mut sheet, metrics, b"three four five six");
    spend(&mut sheet, slip);
    assert_eq!(rt; begun.set, 2);
    assert_eq!(rt; stairs.ok(), at(0, 0));
    assert_eq!(rt; right, at(60, 10));
    assert_eq!(rt; set.set, 4);
    assert_eq!(rt; sheet.boxes().get(2).copied(), line(30, 0, 65, 3));
    assert_eq!(rt; sheet.boxes().get(3).copied(), line(15, 10, 45, 2));
    assert_eq!(rt; sheet.boxes().get(4).copied(), line(0, 20, 15, 1));
    Ok(())
}

#[test]
fn an_open_line_keeps_its_place_of_the_list(rt: HostRuntime) -> Result<(), Fail> {
    let metrics = Cell::new(5)?;
    let mut cells = [Reach::default(); 128];
    let mut list = [NO_BOX; 1];
    let mut sheet = Sheet::new(SIZE, &mut cells, &mut list);
    let slip = sheet.open(WHOLE, Clear::None)?;
    let word = flow(&mut sheet, metrics, b"abc");
    let panel = place(&mut sheet, Side::Left, 10, 10);
    let open = sheet.open_line();
    spend(&mut sheet, slip);
    assert_eq!(rt; word.set, 1);
    assert!(rt; panel.is_none());
    assert!(rt; open.is_some());
    assert_eq!(rt; sheet.boxes().get(0).copied(), line(0, 0, 15, 1));
    Ok(())
}

#[test]
fn two_sheets_know_nothing_of_each_other(rt: HostRuntime) -> Result<(), Fail> {
    let mut cells = [Reach::default(); 128];
    let mut list = [NO_BOX; 2];
    let mut others = [Reach::default(); 128];
    let mut other_list = [NO_BOX; 2];
    let mut sheet = Sheet::new(SIZE, &mut cells, &mut list);
    let mut other = Sheet::new(SIZE, &mut others, &mut other_list);
    let slip = sheet.open(WHOLE, Clear::None)?;
    let first = place(&mut sheet, Side::Left, 100, 20);
    let refused = place(&mut other, Side::Left, 100, 10);
    let second = place(&mut sheet, Side::Left, 100, 10);
    spend(&mut sheet, slip);
    assert!(rt; refused.is_none());
    let slip = other.open(WHOLE, Clear::None)?;
    let third = place(&mut other, Side::Left, 100, 10);
    spend(&mut other, slip);
    assert_eq!(rt; first, at(0, 0));
    assert_eq!(rt; second, at(0, 20));
    assert_eq!(rt; third, at(0, 0));
    Ok(())
}

#[test]
fn no_edge_outlives_its_sheet(rt: HostRuntime) -> Result<(), Fail> {
    let mut cells = [Reach::default(); 128];
    let mut list = [NO_BOX; 2];
    let mut sheet = Sheet::new(SIZE, &mut cells, &mut list);
    let slip = sheet.open(WHOLE, Clear::None)?;
    let old = place(&mut sheet, Side::Left, 100, 60);
    spend(&mut sheet, slip);
    assert_eq!(rt; old, at(0, 0));
    let mut next = Sheet::new(SIZE, &mut cells, &mut list);
    let slip = next.open(WHOLE, Clear::None)?;
    let new = place(&mut next, Side::Right, 100, 60);
    spend(&mut next, slip);
    assert_eq!(rt; new, at(0, 0));
    assert_eq!(rt; next.totals().panels, 1);
    Ok(())
}

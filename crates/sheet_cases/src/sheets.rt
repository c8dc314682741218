// Whole sheets: their lists, their open lines, their memory.
use crate::playing::{NO_BOX, SIZE, WHOLE, flow, place, spend};
use places::parts::Place;
use reaches::reach::Reach;
use rules::boxes::{BoxRecord, LineBox};
use shapes::orders::Order;
use shapes::sides::{Clear, Side};
use shapes::stairs::{Stairs, Step};
use sheet::fault;
use sheet::sheet::Sheet;
use sheet::sizes::SheetSize;
use std::test::Fail;

// The record of a line at this place, so wide, with so many words.
fn line(x: u32, y: u32, width: u32, words: u32) -> Option<BoxRecord> {
    Some(BoxRecord::Line(LineBox { x, y, width, words }))
}

#[test]
fn a_full_list_takes_no_panel(rt: HostRuntime) -> Result<(), Fail> {
    let mut cells = [Reach::default(); 128];
    let mut list = [NO_BOX; 2];
    let mut sheet = Sheet::new(SIZE, &mut cells, &mut list);
    let slip = sheet.open(WHOLE, Clear::None)?;
    let _ = place(&mut sheet, Side::Left, 60, 10, Clear::None);
    let _ = place(&mut sheet, Side::Left, 50, 10, Clear::None);
    let third = place(&mut sheet, Side::Left, 40, 10, Clear::None);
    spend(&mut sheet, slip);
    assert_eq!(rt; third, Err(26));
    assert_eq!(rt; sheet.totals().panels, 2);
    Ok(())
}

#[test]
fn an_open_line_keeps_its_place_of_the_list(rt: HostRuntime) -> Result<(), Fail> {
    let mut cells = [Reach::default(); 128];
    let mut list = [NO_BOX; 1];
    let mut sheet = Sheet::new(SIZE, &mut cells, &mut list);
    let slip = sheet.open(WHOLE, Clear::None)?;
    let word = flow(&mut sheet, b"abc", 0);
    let panel = place(&mut sheet, Side::Left, 10, 10, Clear::None);
    let open = sheet.open_line();
    spend(&mut sheet, slip);
    assert_eq!(rt; word.set, 1);
    assert_eq!(rt; panel, Err(26));
    assert!(rt; open.is_some());
    assert_eq!(rt; sheet.boxes().get(0).copied(), line(0, 0, 15, 1));
    Ok(())
}

#[test]
fn text_runs_round_a_staircase_met_in_mid_line(rt: HostRuntime) -> Result<(), Fail> {
    let steps = [
        Step {
            rows: 10,
            extent: 30,
        },
        Step {
            rows: 10,
            extent: 15,
        },
    ];
    let shape = Stairs::new(30, &steps)?;
    let mut cells = [Reach::default(); 128];
    let mut list = [NO_BOX; 9];
    let mut sheet = Sheet::new(SIZE, &mut cells, &mut list);
    let slip = sheet.open(WHOLE, Clear::None)?;
    let begun = flow(&mut sheet, b"one two", 0);
    let stairs = sheet.panel(Order {
        shape,
        side: Side::Left,
        clear: Clear::None,
    });
    let right = place(&mut sheet, Side::Right, 40, 15, Clear::None);
    let wide = place(&mut sheet, Side::Left, 101, 10, Clear::None);
    let set = flow(&mut sheet, b"one two three four five six", 2);
    spend(&mut sheet, slip);
    assert!(rt; begun.set == 2 && set.set == 4);
    assert!(rt; stairs.is_ok());
    assert_eq!(rt; right, Ok(Place { x: 60, y: 10 }));
    assert_eq!(rt; wide, Err(24));
    assert_eq!(rt; sheet.boxes().get(2).copied(), line(30, 0, 65, 3));
    assert_eq!(rt; sheet.boxes().get(3).copied(), line(15, 10, 45, 2));
    assert_eq!(rt; sheet.boxes().get(4).copied(), line(0, 20, 15, 1));
    assert_eq!(rt; sheet.totals().words, 6);
    Ok(())
}

#[test]
fn two_sheets_know_nothing_of_each_other(rt: HostRuntime) -> Result<(), Fail> {
    let mut cells = [Reach::default(); 128];
    let mut list = [NO_BOX; 2];
    let mut others = [Reach::default(); 128];
    let mut other_list = [NO_BOX; 2];
    let mut sheet = Sheet::new(SIZE, &mut cells, &mut list);
    let mut other = Sheet::new(SIZE, &mut others, &mut other_list);
    let slip = sheet.open(WHOLE, Clear::None)?;
    let _ = place(&mut sheet, Side::Left, 100, 20, Clear::None);
    let refused = place(&mut other, Side::Left, 100, 10, Clear::None);
    let second = place(&mut sheet, Side::Left, 100, 10, Clear::None);
    spend(&mut sheet, slip);
    assert_eq!(rt; refused, Err(20), "no paragraph is open there");
    let slip = other.open(WHOLE, Clear::None)?;
    let third = place(&mut other, Side::Left, 100, 10, Clear::None);
    spend(&mut other, slip);
    assert_eq!(rt; second, Ok(Place { x: 0, y: 20 }));
    assert_eq!(rt; third, Ok(Place { x: 0, y: 0 }));
    Ok(())
}

#[test]
fn no_edge_outlives_its_sheet(rt: HostRuntime) -> Result<(), Fail> {
    let mut cells = [Reach::default(); 128];
    let mut list = [NO_BOX; 2];
    let mut sheet = Sheet::new(SIZE, &mut cells, &mut list);
    let slip = sheet.open(WHOLE, Clear::None)?;
    let old = place(&mut sheet, Side::Left, 100, 60, Clear::None);
    spend(&mut sheet, slip);
    assert_eq!(rt; old, Ok(Place { x: 0, y: 0 }));
    let mut next = Sheet::new(SIZE, &mut cells, &mut list);
    let slip = next.open(WHOLE, Clear::None)?;
    let new = place(&mut next, Side::Right, 100, 60, Clear::None);
    spend(&mut next, slip);
    assert_eq!(rt; new, Ok(Place { x: 0, y: 0 }));
    assert_eq!(rt; next.totals().panels, 1);
    Ok(())
}

#[test]
fn sheets_that_cannot_be_had(rt: HostRuntime) -> Result<(), Fail> {
    let wide = SheetSize {
        width: 4097,
        ..SIZE
    };
    assert!(rt; fault(SIZE, 128).is_none());
    assert_eq!(rt; fault(wide, 128).ok_or("too wide")?.number(), 1);
    assert_eq!(rt; fault(SIZE, 127).ok_or("too few cells")?.number(), 2);
    Ok(())
}

// The number of the refusal of a sheet of this size, if it is refused.
fn refused(size: SheetSize, cells: &mut [Reach], list: &mut [BoxRecord]) -> Option<u8> {
    match Sheet::try_new(size, cells, list) {
        Ok(_) => None,
        Err(back) => Some(back.refusal.number()),
    }
}

// After a refusal the list holds what it held.
#[test]
fn no_sheet_of_a_refused_size(rt: HostRuntime) -> Result<(), Fail> {
    let mut cells = [Reach::default(); 128];
    let mut few = [Reach::default(); 127];
    let mut list = [BoxRecord::Line(LineBox {
        x: 1,
        y: 2,
        width: 3,
        words: 4,
    }); 2];
    let low = SheetSize { line: 0, ..SIZE };
    assert_eq!(rt; refused(low, &mut cells, &mut list), Some(1));
    assert_eq!(rt; refused(SIZE, &mut few, &mut list), Some(2));
    assert_eq!(rt; list.get(1).copied(), line(1, 2, 3, 4));
    assert_eq!(rt; refused(SIZE, &mut cells, &mut list), None);
    Ok(())
}

#[test]
fn a_sheet_of_its_whole_size(rt: HostRuntime) -> Result<(), Fail> {
    let mut cells = [Reach::default(); 128];
    let mut list = [NO_BOX; 2];
    let mut sheet = Sheet::try_new(SIZE, &mut cells, &mut list)?;
    let slip = sheet.open(WHOLE, Clear::None)?;
    let panel = place(&mut sheet, Side::Left, 100, 60, Clear::None);
    spend(&mut sheet, slip);
    assert_eq!(rt; panel, Ok(Place { x: 0, y: 0 }));
    assert_eq!(rt; sheet.totals().panels, 1);
    Ok(())
}

// The worked examples: three calls on a sheet of 100 units by 60 rows, and what the last is answered. A text of no words
// sets nothing.
use crate::playing::{Ask, last};
use places::parts::Place;
use shapes::sides::{Clear, Side};

// A text of no words, for examples of fewer than three calls.
const NONE: Ask<'static> = Ask::Words(b"");

fn left(width: u32, height: u32) -> Ask<'static> {
    Ask::Panel(Side::Left, width, height, Clear::None)
}

fn right(width: u32, height: u32) -> Ask<'static> {
    Ask::Panel(Side::Right, width, height, Clear::None)
}

fn at(x: u32, y: u32) -> Result<Option<Place>, u8> {
    Ok(Some(Place { x, y }))
}

#[test]
fn panels_beside_and_below(rt: HostRuntime) {
    assert_eq!(rt; last(NONE, left(60, 10), left(40, 10)), at(60, 0));
    assert_eq!(rt; last(NONE, left(60, 10), left(41, 10)), at(0, 10));
    assert_eq!(rt; last(left(60, 10), left(50, 10), left(40, 10)), at(50, 10));
    assert_eq!(rt;
        last(left(60, 10), left(101, 10), left(40, 10)),
        at(60, 0),
        "one is refused"
    );
}

#[test]
fn panels_of_both_sides(rt: HostRuntime) {
    assert_eq!(rt; last(NONE, left(60, 10), right(40, 10)), at(60, 0));
    assert_eq!(rt; last(NONE, left(60, 10), right(41, 10)), at(59, 10));
    let cleared = Ask::Panel(Side::Left, 10, 5, Clear::Right);
    assert_eq!(rt; last(left(20, 30), right(20, 10), cleared), at(20, 10));
}

#[test]
fn lines_beside_and_below_panels(rt: HostRuntime) {
    assert_eq!(rt; last(NONE, left(60, 5), Ask::Words(b"eightlet")), at(60, 0));
    assert_eq!(rt; last(NONE, left(60, 5), Ask::Words(b"nineletts")), at(0, 5));
    assert_eq!(rt;
        last(left(60, 5), left(70, 10), Ask::Words(b"sixlet")),
        at(70, 0)
    );
    assert_eq!(rt;
        last(left(60, 5), left(70, 10), Ask::Words(b"sevenle")),
        at(0, 15)
    );
}

#[test]
fn an_open_line_keeps_its_room(rt: HostRuntime) {
    assert_eq!(rt;
        last(left(60, 5), Ask::Words(b"four"), left(30, 10)),
        at(0, 5)
    );
    assert_eq!(rt;
        last(left(60, 5), Ask::Words(b"four"), left(20, 10)),
        at(60, 0)
    );
}

#[test]
fn as_high_and_as_wide_as_the_sheet(rt: HostRuntime) {
    assert_eq!(rt; last(NONE, NONE, left(10, 60)), at(0, 0));
    assert_eq!(rt; last(NONE, NONE, left(10, 61)), Err(27));
    assert_eq!(rt;
        last(NONE, left(10, 61), left(10, 60)),
        at(0, 0),
        "one is refused"
    );
    assert_eq!(rt;
        last(NONE, NONE, Ask::Words(b"abcdefghijklmnopqrst")),
        at(0, 0)
    );
    assert_eq!(rt;
        last(NONE, NONE, Ask::Words(b"abcdefghijklmnopqrstu")),
        Err(25)
    );
}

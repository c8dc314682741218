// Lines worked by hand: what is wrong with each, and where.
use crate::counts::{paragraphs_line, shapes_line};
use crate::flights::steps_line;
use crate::headings::{metric_line, sheet_line};
use crate::items::{Item, item_line};
use crate::paragraphs::para_line;
use lexer::faults::{Cause, Fault};
use lexer::lines::Line;
use std::test::Fail;

// These bytes as a line with its end.
fn ended<'a>(bytes: &'a [u8]) -> Line<'a> {
    Line { bytes, ended: true }
}

// This cause at this place.
fn at(cause: Cause, place: usize) -> Option<Fault> {
    Some(Fault { cause, place })
}

#[test]
fn places_on_headings(rt: HostRuntime) {
    assert_eq!(rt;
        sheet_line(ended(b"")).err(),
        at(Cause::Field, 0),
        "an empty line"
    );
    assert_eq!(rt;
        sheet_line(ended(b"sheet 100 60")).err(),
        at(Cause::Field, 13),
        "a missing field"
    );
    assert_eq!(rt;
        sheet_line(ended(b"sheet 100 60 10 ")).err(),
        at(Cause::Field, 16),
        "a surplus empty field"
    );
    assert_eq!(rt;
        metric_line(ended(b"metric cells 8")).err(),
        at(Cause::Keyword, 7),
        "no family"
    );
    assert_eq!(rt;
        shapes_line(ended(b"shapes 17"), 16).err(),
        at(Cause::Number, 7),
        "past the most"
    );
    assert_eq!(rt;
        paragraphs_line(
            Line {
                bytes: b"paragraphs 2",
                ended: false,
            },
            16,
        )
        .err(),
        at(Cause::Field, 12),
        "no line end"
    );
}

#[test]
fn places_on_shapes_and_items(rt: HostRuntime) {
    assert_eq!(rt;
        para_line(ended(b"para 0 0 none 65 z"), 64).err(),
        at(Cause::Number, 14),
        "judged before the field to its right"
    );
    assert_eq!(rt;
        steps_line(ended(b"steps 17 x")).err(),
        at(Cause::Number, 6),
        "17 steps"
    );
    assert_eq!(rt;
        steps_line(ended(b"steps 1 4 2")).err(),
        at(Cause::Field, 12),
        "no extent"
    );
    assert_eq!(rt;
        item_line(ended(b"text"), 1).err(),
        at(Cause::Field, 5),
        "text without its space"
    );
    assert_eq!(rt;
        item_line(ended(b"textual"), 1).err(),
        at(Cause::Keyword, 0),
        "a keyword is matched whole"
    );
    assert_eq!(rt;
        item_line(ended(b"shape left none 1"), 1).err(),
        at(Cause::Number, 16),
        "there is shape 0 only"
    );
}

#[test]
fn texts_and_steps_are_taken(rt: HostRuntime) -> Result<(), Fail> {
    let Ok(Item::Text(rest)) = item_line(ended(b"text  a"), 0) else {
        return Err(Fail::new("a text"));
    };
    assert!(rt; rest == b" a".as_slice(), "all bytes behind the space");
    let Ok(flight) = steps_line(ended(b"steps 2 9 1 2 3 4")) else {
        return Err(Fail::new("a flight"));
    };
    let [_, second] = flight.steps.as_slice() else {
        return Err(Fail::new("two steps"));
    };
    assert_eq!(rt; second.rows, 3);
    Ok(())
}

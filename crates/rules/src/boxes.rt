// The records of a sheet's list of boxes, and what they come to.
ghost use Rattle.std.specs.Prelude.{◌≡◌, Some};
ghost use Rattle.rules.specs.Boxes.{totals_of};
ghost use Rattle.rules.specs.Printed.{box_words, total_words};

use shapes::sides::Side;
use std::fmt;

// A panel's box: the units x to x + width - 1 of the rows y to y + height - 1.
#[derive(Clone, Copy, PartialEq, Eq, Debug)]
pub struct PanelBox {
    pub side: Side,
    pub x: u32,
    pub y: u32,
    pub width: u32,
    pub height: u32,
}

// A closed line's box: where it begins, how wide its words and spaces are, and how many words it has.
#[derive(Clone, Copy, PartialEq, Eq, Default, Debug)]
pub struct LineBox {
    pub x: u32,
    pub y: u32,
    pub width: u32,
    pub words: u32,
}

#[derive(Clone, Copy, PartialEq, Eq, Debug)]
pub enum BoxRecord {
    Panel(PanelBox),
    Line(LineBox),
}

// How many panels and lines a list holds, and how many words its lines have, each held at the greatest number.
#[derive(Clone, Copy, PartialEq, Eq, Debug)]
pub struct Totals {
    pub panels: u64,
    pub lines: u64,
    pub words: u64,
}

// The box on one line: a panel with its side, place and size, or a line with its place, width and words.
impl fmt::Display for BoxRecord {
    ghost output = { λ b. Some (box_words b) };

    fn fmt<W: fmt::Write>(&self, f: &mut fmt::Formatter<W>) -> fmt::Result {
        match *self {
            BoxRecord::Panel(
                PanelBox {
                    side,
                    x,
                    y,
                    width,
                    height,
                },
            ) => write!(f, "panel {side} {x} {y} {width} {height}"),
            BoxRecord::Line(LineBox { x, y, width, words }) => {
                write!(f, "line {x} {y} {width} {words}")
            }
        }
    }
}

// The totals on one line.
impl fmt::Display for Totals {
    ghost output = { λ t. Some (total_words t) };

    fn fmt<W: fmt::Write>(&self, f: &mut fmt::Formatter<W>) -> fmt::Result {
        let Totals {
            panels,
            lines,
            words,
        } = *self;
        write!(f, "total {panels} {lines} {words}")
    }
}

// What a list of boxes comes to.
pub fn totalled(boxes: &[BoxRecord]) -> Totals
    ensures { result ≡ totals_of boxes.now }
{
    // Three sums of one walk, each held at its greatest: of a `fold` this would want an induction, where the invariant says it.
    let mut panels = 0u64;
    let mut lines = 0u64;
    let mut words = 0u64;
    for record in boxes {
        match record {
            BoxRecord::Panel(_) => panels = panels.saturating_add(1),
            BoxRecord::Line(line) => {
                lines = lines.saturating_add(1);
                words = words.saturating_add(u64::from(line.words));
            }
        }
    }
    Totals {
        panels,
        lines,
        words,
    }
}

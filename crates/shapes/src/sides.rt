// The side that a panel stands on, and the sides that it clears.
ghost use Rattle.shapes.specs.Form.{clears};
ghost use Rattle.shapes.specs.Sides.{side_word};
ghost use Rattle.std.specs.Prelude.{◌≡◌, Some};

use std::fmt;

// The edge of the sheet that a panel keeps to.
#[derive(Clone, Copy, PartialEq, Eq, Debug)]
pub enum Side {
    Left,
    Right,
}

// Its name.
impl fmt::Display for Side {
    ghost output = { λ s. Some (side_word s) };

    fn fmt<W: fmt::Write>(&self, f: &mut fmt::Formatter<W>) -> fmt::Result {
        f.write_str(match self {
            Side::Left => "left",
            Side::Right => "right",
        })
    }
}

// Below the panels of which sides a panel or a paragraph begins.
#[derive(Clone, Copy)]
pub enum Clear {
    None,
    Left,
    Right,
    Both,
}

impl Clear {
    // Whether it takes in the panels of this side.
    pub fn clears(self, side: Side) -> bool
        ensures { result ≡ clears self side }
    {
        match (self, side) {
            (Clear::Both, _) => true,
            (Clear::Left, Side::Left) => true,
            (Clear::Right, Side::Right) => true,
            _ => false,
        }
    }
}

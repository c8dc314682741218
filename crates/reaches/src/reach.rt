// The reach of some rows: four numbers that say what the panels there leave between any margins.
ghost use Rattle.std.specs.Prelude.{◌≡◌};
ghost use Rattle.reaches.specs.Reaches.{no_reach, farther, left_over, leaves_need};
ghost use Rattle.reaches.specs.Laws.{reach_laws, reach_equals};

use places::parts::Span;
use segment_tree::Element;

// How far in from the sheet's left edge the boxes and the areas of left panels reach, and from its right edge those of
// right panels.
#[derive(Clone, Copy, PartialEq, Eq, Default, Debug)]
pub struct Reach {
    pub box_left: u32,
    pub box_right: u32,
    pub area_left: u32,
    pub area_right: u32,
}

// What panels take of a row: their boxes, or their float areas.
#[derive(Clone, Copy)]
pub enum Taken {
    Boxes,
    Areas,
}

// Where panels leave room: between these margins on a sheet of this width, beside the boxes or beside the areas.
#[derive(Clone, Copy)]
pub struct Gap {
    pub margins: Span,
    pub width: u32,
    pub of: Taken,
}

// So many units are needed there.
#[derive(Clone, Copy)]
pub struct Need {
    pub gap: Gap,
    pub need: u32,
}

impl Gap {
    // What boxes, or areas, that reach in so far leave between the margins.
    pub fn left_over(self, reach: Reach) -> Span
        ensures { result ≡ left_over self.of self.width self.margins reach }
    {
        let (left, right) = match self.of {
            Taken::Boxes => (reach.box_left, reach.box_right),
            Taken::Areas => (reach.area_left, reach.area_right),
        };
        Span {
            from: self.margins.from.max(left),
            to: self.margins.to.min(self.width.saturating_sub(right)),
        }
    }
}

impl Element for Reach {
    type Limit = Need;

    ghost none = { no_reach };

    ghost op = { farther };

    ghost fits = { leaves_need };

    ghost lawful = { reach_laws };

    ghost exact = { reach_equals };

    fn empty() -> Reach {
        Reach::default()
    }

    fn join(self, other: Reach) -> Reach {
        Reach {
            box_left: self.box_left.max(other.box_left),
            box_right: self.box_right.max(other.box_right),
            area_left: self.area_left.max(other.area_left),
            area_right: self.area_right.max(other.area_right),
        }
    }

    fn within(self, limit: &Need) -> bool {
        limit.need <= limit.gap.left_over(self).room()
    }
}

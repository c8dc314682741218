// The bottoms of the panels of each side, for what clears them.
ghost use Rattle.std.specs.Prelude.{◌≡◌};
ghost use Rattle.sheet.specs.Clearance.{lowest, with_bottom};

use shapes::sides::{Clear, Side};

// The greatest bottom of the panels of each side, 0 where there is none.
#[derive(Clone, Copy, Default)]
pub struct Bottoms {
    pub left: u32,
    pub right: u32,
}

impl Bottoms {
    // The first row below all panels of the cleared sides.
    pub(crate) fn cleared(self, clear: Clear) -> u32
        ensures { result ≡ lowest clear self }
    {
        match clear {
            Clear::None => 0,
            Clear::Left => self.left,
            Clear::Right => self.right,
            Clear::Both => self.left.max(self.right),
        }
    }

    // With one panel more, of this side and bottom.
    pub(crate) fn with(self, side: Side, bottom: u32) -> Bottoms
        ensures { result ≡ with_bottom side bottom self }
    {
        match side {
            Side::Left => Bottoms {
                left: bottom.max(self.left),
                ..self
            },
            Side::Right => Bottoms {
                right: bottom.max(self.right),
                ..self
            },
        }
    }
}

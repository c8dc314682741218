// Units of a row, the open line, and a place.

// Units of a row, from a left edge up to a right edge. A paragraph's margins are such a span.
#[derive(Clone, Copy)]
pub struct Span {
    pub from: u32,
    pub to: u32,
}

impl Span {
    ghost use Rattle.std.specs.Prelude.{◌≡◌};
    ghost use Rattle.places.specs.Bands.{room};

    // How wide it is, 0 where its right edge comes first.
    pub fn room(self) -> u32
        ensures { result ≡ room self }
    {
        self.to.saturating_sub(self.from)
    }
}

// An open line: its top row, the units that its words and the spaces between them use, and how many words it has.
#[derive(Clone, Copy)]
pub struct Line {
    pub top: u32,
    pub used: u32,
    pub words: u32,
}

// The top left corner of a box.
#[derive(Clone, Copy, PartialEq, Eq, Debug)]
pub struct Place {
    pub x: u32,
    pub y: u32,
}

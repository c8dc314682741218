// Where lines and panels stand.
ghost use Rattle.std.specs.Prelude.{◌≡◌, ◌+◌, ◌-◌, ◌^◌, ◌<◌, T};
ghost use Rattle.places.specs.Bands.{widest};
ghost use Rattle.rows.specs.Asked.{panel_at, Ends};
ghost use Rattle.rows.specs.OneRow.{Leaves};

use places::parts::{Line, Span};
use reaches::part::Part;
use shapes::Shape;
use shapes::sides::Side;

// The margins, how many rows a line has, and the open line, if any.
#[derive(Clone, Copy)]
pub struct Ground {
    pub margins: Span,
    pub line: u32,
    pub current: Option<Line>,
}

// The greatest extent of a shape's first n rows. By a `for`, whose invariant is the definition of `widest` itself; the
// greatest item of a chain says less directly that it is that.
fn widest_of<S: Shape>(shape: &S, n: u32) -> u32
    ensures { result ≡ widest (S.model shape.now).extent n }
{
    let mut most = 0;
    for k in 0..n {
        most = most.max(shape.extent(k));
    }
    most
}

impl Ground {
    // Whether the open line keeps room for its words beside a panel at (x, y), where without it its band is `around`.
    pub(crate) fn keeps<S: Shape>(self, around: Span, side: Side, x: u32, y: u32, shape: &S) -> bool
        requires small { x + (S.model shape.now).wide < 2 ^ 32 }
        requires ends { Ends self.current self.line (2 ^ 32 - 1) }
        ensures kept { T result → Leaves self.line around (panel_at side x y (S.model shape.now)) self.current }
        ensures lost { Leaves self.line around (panel_at side x y (S.model shape.now)) self.current → T result }
    {
        let Some(words) = self.current else {
            return true;
        };
        let bottom = words.top + self.line;
        if y >= bottom {
            return true;
        }
        let w = shape.width();
        let e = widest_of(shape, bottom - y);
        words.used <= Part { side, x, w, e }.beside(around).room()
    }
}

// What a band keeps beside a panel, and the place of a span that is nearest a side.
ghost use Rattle.std.specs.Prelude.{◌≡◌};
ghost use Rattle.places.specs.Tried.{against};
ghost use Rattle.reaches.specs.Panels.{beside_part};

use crate::part::Part;
use places::parts::Span;
use shapes::sides::Side;

impl Part {
    // What is left of a band beside it.
    pub fn beside(self, band: Span) -> Span
        ensures { result ≡ beside_part self.side self.x self.w self.e band }
    {
        if self.e == 0 {
            return band;
        }
        match self.side {
            Side::Left => Span {
                from: band.from.max(self.x + self.e),
                to: band.to,
            },
            Side::Right => Span {
                from: band.from,
                to: band.to.min(self.x + self.w - self.e),
            },
        }
    }
}

// Where in a span a box w wide stands nearest its side.
pub fn nearest(span: Span, side: Side, w: u32) -> u32
    ensures { result ≡ against side span w }
{
    match side {
        Side::Left => span.from,
        Side::Right => span.to.saturating_sub(w),
    }
}

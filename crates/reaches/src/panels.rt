// What a panel reaches on one of its rows.
ghost use Rattle.std.specs.Prelude.{◌≡◌, ◌+◌, ◌^◌, ◌<◌, ◌≤◌, cond, nat_lt};
ghost use Rattle.reaches.specs.Panels.{reach_at};

use crate::part::Part;
use crate::reach::Reach;
use shapes::sides::Side;

// How far in from the edge of its side what is e wide of a box reaches that stands so many units in.
fn in_from(edge: u32, e: u32) -> u32
    requires { edge + e < 2 ^ 32 }
    ensures { result ≡ cond (nat_lt 0 e) (edge + e) 0 }
{
    if e > 0 { edge + e } else { 0 }
}

impl Part {
    // What the whole box and this part of it, as a panel's area, reach on a row of a sheet of this width.
    pub fn reach(self, width: u32) -> Reach
        requires { self.x + self.w ≤ width }
        ensures { result ≡ reach_at width self.side self.x self.w self.w self.e }
    {
        match self.side {
            Side::Left => Reach {
                box_left: in_from(self.x, self.w),
                area_left: in_from(self.x, self.e),
                ..Reach::default()
            },
            Side::Right => {
                let edge = width - (self.x + self.w);
                Reach {
                    box_right: in_from(edge, self.w),
                    area_right: in_from(edge, self.e),
                    ..Reach::default()
                }
            }
        }
    }
}

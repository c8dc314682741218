// Shapes of panels: what a shape answers, the plain box, the staircase, and an order for a panel.
#![tactic(auto)]

ghost use Rattle.shapes.specs.Form.{Form, Real};
ghost use Rattle.std.specs.Prelude.{◌≡◌};

pub mod orders;
pub mod plain;
mod ranges;
pub mod sides;
pub mod stairs;
pub mod theorems;

// The one refusal of this crate: these numbers make no shape.
#[derive(Clone, Copy, Debug)]
pub struct NoShape;

// How wide and how high a panel is, and how far it reaches in on each of its rows, from the top down.
// Asking alters nothing, and the same question has the same answer.
pub trait Shape {
    // All that a layout may ask of it.
    ghost model: { Self → Form };

    // 1 to 4,096 units.
    fn width(&self) -> u32
        ensures { result ≡ (model self.now).wide };

    // 1 to 4,096 rows.
    fn height(&self) -> u32
        ensures { result ≡ (model self.now).tall };

    // How far it reaches in on its row `k`, from the side that it stands on: 0 to its width, and 0 below its bottom.
    fn extent(&self, k: u32) -> u32
        ensures { result ≡ (model self.now).extent k };

    // The ranges that each shape keeps.
    ghost real: { (s : Self) → Real (model s) };
}

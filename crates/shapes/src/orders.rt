// What a caller asks for when a panel is to be placed.
use crate::Shape;
use crate::sides::{Clear, Side};

// A shape, which the order owns, the side that the panel is to stand on, and the sides that it clears.
#[derive(Drop)]
pub struct Order<S: Shape> {
    pub shape: S,
    pub side: Side,
    pub clear: Clear,
}

// The rows of a sheet: the bands between its panels, the least row for a line, the best place for a panel, and taking a
// panel in. A row is told by its reach, one element of a tree over lent cells, so each question is a few joins.
#![tactic(auto)]

ghost use Rattle.std.specs.Prelude.{◌≡◌, ◌^◌, ◌<◌};

use reaches::reach::Reach;
use segment_tree::Tree;

// The reach of some rows, and what it leaves between margins.
mod bands;
// The least row for a line.
mod lines;
// New rows, and how wide they are.
mod make;
// Where lines and panels stand: the margins, the height of a line, and the open line.
pub mod ground;
// The best place for a panel.
mod panels;
// Taking a panel in.
mod taking;

// The rows of a sheet of some width and height, and on each row how far in the panels there reach.
#[derive(Drop)]
pub struct Rows<'a> {
    tree: Tree<'a, Reach>,
    width: u32,
    height: u32,
    // The tree has an element for each row.
    ghost count: { tree.count ≡ height },
    // The height is a number of 32 bits, which a proof may use where the code doesn't read it.
    ghost high: { height < 2 ^ 32 },
}

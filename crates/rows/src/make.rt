// New rows, with no panels, and how wide they are.
ghost use Rattle.std.specs.Prelude.{◌≡◌, ◌*◌, ◌<◌, length, MatchOption};
ghost use Rattle.segment_tree.specs.LeafCount.{leaf_count};
ghost use Rattle.rows.specs.Made.{Laid, Bare};

use crate::Rows;
use crate::bands::index;
use reaches::reach::Reach;
use segment_tree::Tree;

impl<'a> Rows<'a> {
    // The rows of an empty sheet, where there are cells enough, whatever these hold.
    pub fn new(cells: &'a mut [Reach], width: u32, height: u32) -> Option<Rows<'a>>
        ensures { MatchOption result (length cells.old < 2 * leaf_count height) (λ rows. Laid cells.old width height rows) }
    {
        let tree = Tree::new(cells, index(height))?;
        Some(Rows {
            tree,
            width,
            height,
        })
    }

    // No rows at all. It takes no cells and writes none.
    pub fn vacant(cells: &'a mut [Reach]) -> Rows<'a>
        ensures { Bare cells.old result }
    {
        Rows {
            tree: Tree::vacant(cells),
            width: 0,
            height: 0,
        }
    }

    // How wide the sheet is, in units.
    pub fn width(&self) -> u32
        ensures { result ≡ self.now.width }
    {
        self.width
    }
}

// Keeping staircases, and taking them again.
ghost use Rattle.std.specs.Prelude.{◌≡◌, [], length};
ghost use Rattle.std.specs.List.{slice_get};
ghost use Rattle.shapes.specs.Models.{stairs_model};
ghost use Rattle.items.specs.Shelves.{kept, with_form, form_of};

use crate::shelves::{MOST_SHAPES, Shelf};
use shapes::stairs::{Stairs, Step};

impl Shelf {
    // A shelf with nothing on it.
    pub fn new() -> Shelf
        ensures { kept result ≡ [] }
    {
        // What stands past the count is never asked for.
        let blank = Stairs::new(1, &[Step { rows: 1, extent: 0 }]).unwrap();
        Shelf {
            stairs: [blank; MOST_SHAPES],
            count: 0,
        }
    }

    // How many staircases there are, as lines count them. The cast loses nothing, since 16 are the most.
    pub fn count(&self) -> u16
        ensures { result ≡ length (kept self.now) }
    {
        self.count as u16
    }

    // Keeps one more, where there is room for it.
    pub fn put(&mut self, stairs: Stairs)
        ensures { kept self.new ≡ with_form (stairs_model stairs) (kept self.old) }
    {
        if self.count < MOST_SHAPES {
            self.stairs[self.count] = stairs;
            self.count += 1;
        }
    }

    // The staircase of this number, counted from 0.
    pub fn get(&self, index: u16) -> Option<Stairs>
        ensures { form_of result ≡ slice_get (kept self.now) index }
    {
        self.stairs[0..self.count].get(usize::from(index)).copied()
    }
}

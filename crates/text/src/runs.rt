// A run of words that stand one after another on a line, as an element of a segment tree.
ghost use Rattle.std.specs.Prelude.{◌≡◌};
ghost use Rattle.text.specs.Run.{no_run, longer, width_of, has_room, SumsAreHeld};
ghost use Rattle.text.specs.HeldSums.{run_laws, run_equals};

use segment_tree::Element;

// The advances of the words together, and how many words there are; each sum is held at the largest number.
#[derive(Clone, Copy, PartialEq, Eq, Default, Debug)]
pub struct Run {
    pub advance: u32,
    pub count: u32,
}

// The width that a line has, and the advance of the space between two words.
#[derive(Clone, Copy)]
pub struct Room {
    pub width: u32,
    pub space: u8,
}

impl Run {
    // The width of the run on one line.
    pub fn width(self, space: u8) -> u64
        ensures { result ≡ width_of self space }
    {
        let gaps = self.count.saturating_sub(1);
        u64::from(self.advance) + u64::from(space) * u64::from(gaps)
    }
}

impl Element for Run {
    type Limit = Room;

    ghost none = { no_run };

    ghost op = { longer };

    ghost fits = { has_room };

    ghost lawful = { run_laws };

    ghost exact = { run_equals };

    fn empty() -> Run {
        Run::default()
    }

    fn join(self, other: Run) -> Run {
        Run {
            advance: self.advance.saturating_add(other.advance),
            count: self.count.saturating_add(other.count),
        }
    }

    fn within(self, limit: &Room) -> bool {
        self.width(limit.space) <= u64::from(limit.width)
    }
}

// For numbers of 32 bits a held sum is the sum, or the largest of them where the sum is past it.
pub fn sums_are_held() -> u8
    ensures { SumsAreHeld }
{
    0
}

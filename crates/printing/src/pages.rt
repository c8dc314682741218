// Lent memory that bytes are laid into, one after another. What is past its end is counted and left out, so that the same
// calls over no memory say how much of it is wanted.
// This stands beside `fmt::Write` because the contract of `write!` leaves open when a writer may fail, and a page never does.
ghost use Rattle.std.specs.Prelude.{◌≡◌, [], ◌∷◌, decimal};
ghost use Rattle.fault_lines.specs.Fields.{fields};
ghost use Rattle.printing.specs.Laying.{laid};
ghost use Rattle.printing.specs.Pages.{on};

// The memory, which stays the same one, and where the next byte goes.
// That it stays the same one is asked at each call, beside the bytes: between two states it is no fact of one page.
#[derive(Drop)]
pub struct Page<'a> {
    pub(crate) out: &'a mut [u8],
    pub(crate) at: usize,
}

impl Page<'_> {
    // Lays one byte.
    fn byte(&mut self, code: u8)
        ensures bytes { on self.new ≡ laid (on self.old) (code ∷ []) }
        ensures memory { self.new.out.ghost_name ≡ self.old.out.ghost_name }
    {
        if self.at < self.out.len() {
            self.out[self.at] = code;
        }
        self.at = self.at.saturating_add(1);
    }

    // Lays these bytes.
    pub(crate) fn text(&mut self, bytes: &[u8])
        ensures bytes { on self.new ≡ laid (on self.old) bytes.now }
        ensures memory { self.new.out.ghost_name ≡ self.old.out.ghost_name }
    {
        for code in bytes {
            self.byte(*code);
        }
    }

    // Lays a number, in decimal.
    fn number(&mut self, n: u64)
        ensures bytes { on self.new ≡ laid (on self.old) (decimal n) }
        ensures memory { self.new.out.ghost_name ≡ self.old.out.ghost_name }
    {
        if n < 10 {
            // The cast is proved to lose nothing; `try_from` would only add an `unwrap`.
            return self.byte(b'0' + n as u8);
        }
        self.number(n / 10);
        // This cast too is proved to lose nothing; `try_from` would only add an `unwrap`.
        self.byte(b'0' + (n % 10) as u8);
    }

    // Lays each of these numbers behind a space, and then the line end.
    pub(crate) fn numbers(&mut self, list: &[u64])
        ensures bytes { on self.new ≡ laid (on self.old) (fields list.now) }
        ensures memory { self.new.out.ghost_name ≡ self.old.out.ghost_name }
    {
        for n in list {
            self.byte(b' ');
            self.number(*n);
        }
        self.byte(b'\n');
    }
}

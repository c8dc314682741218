// The right to end a paragraph.
ghost use Rattle.std.specs.Prelude.{◌≡◌};

// Opening a paragraph makes one, and only ending that paragraph spends it: a slip that is let go unspent is refused.
pub struct Slip {
    pub(crate) number: u16,
}

impl Drop for Slip {
    // A spent slip has the number 0.
    fn drop(self)
        requires { self.number ≡ 0 }
    {
        let Slip { number: _ } = self;
    }
}

// What a tree asks of its elements.
ghost use Rattle.std.specs.Prelude.{◌≡◌, ◌↔◌, Bool, true};
ghost use Rattle.segment_tree.specs.Joins.{Laws};

// A kind of element that can be joined in order, as a sum or a maximum, and held against a limit.
pub trait Element: Copy + PartialEq {
    // What an element is held against.
    type Limit;

    // The element that changes nothing.
    ghost none: { Self };

    // Two neighbours, the left one first, as one.
    ghost op: { Self → Self → Self };

    // Whether an element is within a limit.
    ghost fits: { Self → Self.Limit → Bool };

    fn empty() -> Self
        ensures { result ≡ none };

    fn join(self, other: Self) -> Self
        ensures { result ≡ op self other };

    fn within(self, limit: &Self::Limit) -> bool
        ensures { result ≡ fits self limit.now };

    ghost lawful: { Laws none op fits };

    // Two elements are equal by `==` exactly where they are the same element.
    ghost exact: { (x y : Self) → (Self.eq x y ≡ true) ↔ (x ≡ y) };
}

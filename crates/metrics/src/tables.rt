// A table of widths at a size.
ghost use Rattle.std.specs.Prelude.{ℕ, ◌<◌, ◌≤◌, slice_index};
ghost use Rattle.metrics.specs.Width.{FitWidth, FitSize};

pub mod calls;
pub mod house;
pub mod making;

// The widths of the 95 printable bytes, in thousandths of a unit at size 1, and a size.
#[derive(Clone, Copy)]
pub struct Table {
    widths: [u16; 95],
    size: u16,
    ghost wide: { (k : ℕ) → k < 95 → FitWidth (slice_index widths k) },
    ghost large: { FitSize size },
}

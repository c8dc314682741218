// What a table answers as a metrics.
ghost use Rattle.std.specs.Prelude.{◌≡◌, ◌<◌};
ghost use Rattle.metrics.specs.Width.{FitWidth, FitSize, place_of, scaled, table_advance};
ghost use Rattle.metrics.specs.Scaling.{table_some, table_small};

use crate::advances::Metrics;
use crate::rounding::rounded;
use crate::tables::Table;

// Where the width of `byte` stands in a table; bytes that aren't printable have the space's.
fn place(byte: u8) -> usize
    ensures which { result ≡ place_of byte }
    ensures inside { result < 95 }
{
    match byte {
        b' '..=b'~' => usize::from(byte - b' '),
        _ => 0,
    }
}

// What a width comes to at a size. A byte that is there takes some room: 0 counts as 1.
// The cast is proved to lose nothing; `try_from` would only add an `unwrap`.
fn scaled(width: u16, size: u16) -> u8
    requires wide { FitWidth width }
    requires large { FitSize size }
    ensures { result ≡ scaled width size }
{
    rounded(u32::from(width) * u32::from(size)).max(1) as u8
}

impl Metrics for Table {
    ghost advances = { λ t b. table_advance t.widths t.size b };

    ghost ranges = { λ m.
        record {
          least = λ b _. table_some m.widths m.size b;
          most = λ b _. table_small m.widths m.size b m.wide m.large;
        } };

    fn advance(&self, byte: u8) -> u8 {
        scaled(self.widths[place(byte)], self.size)
    }
}

// What a metrics is asked.
ghost use Rattle.std.specs.Prelude.{◌≡◌, ℕ};
ghost use Rattle.metrics.specs.Advance.{Advances};

// The advance of each byte, in whole units. The answers never change.
pub trait Metrics {
    ghost advances: { Self → ℕ → ℕ };

    // How far `byte` moves the pen.
    fn advance(&self, byte: u8) -> u8
        ensures { result ≡ advances self.now byte };

    ghost ranges: { (m : Self) → Advances (advances m) };
}

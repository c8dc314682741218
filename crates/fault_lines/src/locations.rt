// A fault with the line that it lies on.
ghost use Rattle.std.specs.Prelude.{◌≡◌};
ghost use Rattle.fault_lines.specs.Locations.{on_line};

// A fault, and the line of the file that it lies on, counted from 1.
#[derive(Clone, Copy, PartialEq, Eq, Debug)]
pub struct Located<F> {
    pub line: usize,
    pub fault: F,
}

// What came of this line of the file, with its number where it is a fault.
pub fn on_line<T, F>(line: usize, outcome: Result<T, F>) -> Result<T, Located<F>>
    ensures { result ≡ on_line line outcome }
{
    outcome.map_err(|fault| Located { line, fault })
}

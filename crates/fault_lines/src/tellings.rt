// What is told of a fault, and the line that is printed of it.
ghost use Rattle.std.specs.Prelude.{◌≡◌, ℕ, Some};
ghost use Rattle.fault_lines.specs.declared.layers.Layer.{Layer};
ghost use Rattle.fault_lines.specs.Tellings.{told, fault_line};

use crate::layers::Layer;
use crate::locations::Located;
use std::fmt;

// Why a line is refused.
pub trait Reason {
    // The layer that refuses, the number of the cause, and the place.
    ghost layer_of: { Self → Layer };

    ghost cause_of: { Self → ℕ };

    ghost place_of: { Self → ℕ };

    // The layer that refuses.
    fn layer(&self) -> Layer
        ensures { result ≡ layer_of self.now };

    // The number by which the cause is reported.
    fn cause(&self) -> u8
        ensures { result ≡ cause_of self.now };

    // Where the fault lies in its line, or 0 where it lies in no one place.
    fn place(&self) -> usize
        ensures { result ≡ place_of self.now };
}

// A fault as it is told: the layer that refuses, the line of the file, counted from 1, the number of the cause, and the place.
#[derive(Clone, Copy, PartialEq, Eq, Debug)]
pub struct FaultLine {
    pub layer: Layer,
    pub line: usize,
    pub cause: u8,
    pub place: usize,
}

impl<F: Reason + Drop> From<Located<F>> for FaultLine {
    ghost from_gives = { λ x y. y ≡ told (F.layer_of x.fault) x.line (F.cause_of x.fault) (F.place_of x.fault) };

    fn from(located: Located<F>) -> FaultLine {
        FaultLine {
            layer: located.fault.layer(),
            line: located.line,
            cause: located.fault.cause(),
            place: located.fault.place(),
        }
    }
}

impl fmt::Display for FaultLine {
    ghost output = { λ f. Some (fault_line f) };

    fn fmt<W: fmt::Write>(&self, f: &mut fmt::Formatter<W>) -> fmt::Result {
        let layer = self.layer;
        let line = self.line;
        let cause = self.cause;
        let place = self.place;
        write!(f, "fault {layer} {line} {cause} {place}\n")
    }
}

// A located fault is printed as the line that tells it.
impl<F: Reason> fmt::Display for Located<F> {
    ghost output = { λ x. Some (fault_line (told (F.layer_of x.fault) x.line (F.cause_of x.fault) (F.place_of x.fault))) };

    fn fmt<W: fmt::Write>(&self, f: &mut fmt::Formatter<W>) -> fmt::Result {
        let told = FaultLine {
            layer: self.fault.layer(),
            line: self.line,
            cause: self.fault.cause(),
            place: self.fault.place(),
        };
        write!(f, "{told}")
    }
}

// Why a file is refused, and on which line.
ghost use Rattle.std.specs.Prelude.{◌≡◌};
ghost use Rattle.text.specs.declared.faults.TextFault.TheVariants.{Metrics};
ghost use Rattle.text_report.specs.declared.faults.FileFault.TheVariants.{Form, Measuring};
ghost use Rattle.text_report.specs.Faults.{layer_of, cause_of, place_of};

use fault_lines::layers::Layer;
use fault_lines::locations;
use fault_lines::tellings::Reason;
use lexer::faults::Fault;
use metrics::Unfit;
use text::{TextFault, Unmeasured};

// Why a line is refused; each layer's own fault is kept as it is.
// An enum of the kinds that `items` has too, nested here, would still want each of the four `From` for `?`.
#[derive(Clone, Copy)]
pub enum FileFault {
    // The line is not of its form.
    Form(Fault),
    // There is no such metrics, or the text is not measured.
    Measuring(TextFault),
    // The file has no metric line.
    NoMetric,
}

impl From<Fault> for FileFault {
    ghost from_gives = { λ x y. y ≡ Form x };

    fn from(fault: Fault) -> FileFault {
        FileFault::Form(fault)
    }
}

impl From<TextFault> for FileFault {
    ghost from_gives = { λ x y. y ≡ Measuring x };

    fn from(fault: TextFault) -> FileFault {
        FileFault::Measuring(fault)
    }
}

impl From<Unmeasured<'_>> for FileFault {
    ghost from_gives = { λ x y. y ≡ Measuring x.fault };

    fn from(back: Unmeasured<'_>) -> FileFault {
        FileFault::Measuring(back.fault)
    }
}

impl From<Unfit> for FileFault {
    ghost from_gives = { λ _ y. y ≡ Measuring Metrics };

    fn from(unfit: Unfit) -> FileFault {
        FileFault::Measuring(TextFault::from(unfit))
    }
}

impl Reason for FileFault {
    ghost layer_of = { layer_of };

    ghost cause_of = { cause_of };

    ghost place_of = { place_of };

    fn layer(&self) -> Layer {
        match self {
            FileFault::Form(_) | FileFault::NoMetric => Layer::File,
            FileFault::Measuring(_) => Layer::Text,
        }
    }

    // By a match: the numbers of the layers are gathered here, and a kind that holds a fault has none by `as`.
    fn cause(&self) -> u8 {
        match self {
            FileFault::Form(fault) => fault.cause.number(),
            FileFault::Measuring(fault) => fault.cause(),
            FileFault::NoMetric => 11,
        }
    }

    // The offset in the line at which the fault lies, or 0 where it lies in no one place.
    fn place(&self) -> usize {
        match self {
            FileFault::Form(fault) => fault.place,
            FileFault::Measuring(fault) => fault.place(),
            FileFault::NoMetric => 0,
        }
    }
}

// The first fault of a file: the line, counted from 1, and why it is refused.
pub type Located = locations::Located<FileFault>;

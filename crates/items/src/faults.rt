// Why a sheet file is refused, and on which line.
ghost use Rattle.std.specs.Prelude.{◌≡◌};
ghost use Rattle.rules.specs.declared.refusals.Refusal.TheVariants.{NoShape};
ghost use Rattle.text.specs.declared.faults.TextFault.TheVariants.{Metrics};
ghost use Rattle.items.specs.declared.faults.FileFault.TheVariants.{Form, Measuring, Refused};
ghost use Rattle.items.specs.Faults.{setback, layer_of, cause_of, place_of};

use fault_lines::layers::Layer;
use fault_lines::locations;
use fault_lines::tellings::Reason;
use lexer::faults::Fault;
use metrics::Unfit;
use rules::refusals::Refusal;
use shapes::NoShape;
use text::{TextFault, Unmeasured};

// A refused call on the sheet, and how many words it set before its refusal.
#[derive(Clone, Copy)]
pub struct SheetFault {
    pub refusal: Refusal,
    pub words: usize,
}

// Why a line is refused; each layer's own fault is kept as it is.
#[derive(Clone, Copy)]
pub enum FileFault {
    // The line is not of its form.
    Form(Fault),
    // The file stops before this line, or goes on with it.
    Extent,
    // The file is too long.
    Long,
    // There is no such metrics, or the text is not measured.
    Measuring(TextFault),
    // The call on the sheet is refused, or there is no such sheet or shape.
    Refused(SheetFault),
}

// The first fault of a file: the line, counted from 1, and why it is refused.
pub type Located = locations::Located<FileFault>;

impl From<Refusal> for SheetFault {
    ghost from_gives = { λ x y. y ≡ setback x 0 };

    fn from(refusal: Refusal) -> SheetFault {
        SheetFault { refusal, words: 0 }
    }
}

impl From<NoShape> for SheetFault {
    ghost from_gives = { λ _ y. y ≡ setback NoShape 0 };

    fn from(_refusal: NoShape) -> SheetFault {
        SheetFault {
            refusal: Refusal::NoShape,
            words: 0,
        }
    }
}

impl From<Fault> for FileFault {
    ghost from_gives = { λ x y. y ≡ Form x };

    fn from(fault: Fault) -> FileFault {
        FileFault::Form(fault)
    }
}

impl From<TextFault> for FileFault {
    ghost from_gives = { λ x y. y ≡ Measuring x };

    fn from(fault: TextFault) -> FileFault {
        FileFault::Measuring(fault)
    }
}

impl From<Unmeasured<'_>> for FileFault {
    ghost from_gives = { λ x y. y ≡ Measuring x.fault };

    fn from(text: Unmeasured<'_>) -> FileFault {
        FileFault::Measuring(text.fault)
    }
}

impl From<Unfit> for FileFault {
    ghost from_gives = { λ _ y. y ≡ Measuring Metrics };

    fn from(unfit: Unfit) -> FileFault {
        FileFault::Measuring(TextFault::from(unfit))
    }
}

impl From<SheetFault> for FileFault {
    ghost from_gives = { λ x y. y ≡ Refused x };

    fn from(fault: SheetFault) -> FileFault {
        FileFault::Refused(fault)
    }
}

impl From<Refusal> for FileFault {
    ghost from_gives = { λ x y. y ≡ Refused (setback x 0) };

    fn from(refusal: Refusal) -> FileFault {
        FileFault::Refused(SheetFault::from(refusal))
    }
}

impl From<NoShape> for FileFault {
    ghost from_gives = { λ _ y. y ≡ Refused (setback NoShape 0) };

    fn from(refusal: NoShape) -> FileFault {
        FileFault::Refused(SheetFault::from(refusal))
    }
}

// The offset in its line at which a text begins.
const TEXT_START: usize = 5;

impl Reason for FileFault {
    ghost layer_of = { layer_of };

    ghost cause_of = { cause_of };

    ghost place_of = { place_of };

    fn layer(&self) -> Layer {
        match self {
            FileFault::Form(_) | FileFault::Extent | FileFault::Long => Layer::File,
            FileFault::Measuring(_) => Layer::Text,
            FileFault::Refused(_) => Layer::Sheet,
        }
    }

    // The numbers stand beside the kinds, since a kind that holds another layer's fault has the number of that.
    fn cause(&self) -> u8 {
        match self {
            FileFault::Form(fault) => fault.cause.number(),
            FileFault::Extent => 11,
            FileFault::Long => 12,
            FileFault::Measuring(fault) => fault.cause(),
            FileFault::Refused(fault) => fault.refusal.number(),
        }
    }

    // The offset in the line of a field or byte, the words set before a refused one, or 0.
    fn place(&self) -> usize {
        match self {
            FileFault::Form(fault) => fault.place,
            FileFault::Extent | FileFault::Long => 0,
            FileFault::Measuring(TextFault::Byte { place }) => place.saturating_add(TEXT_START),
            FileFault::Measuring(fault) => fault.place(),
            FileFault::Refused(fault) => fault.words,
        }
    }
}

// The line of a fault.
ghost use Rattle.std.specs.Prelude.{◌≡◌, length};
ghost use Rattle.fault_lines.specs.Layers.{layer_word};
ghost use Rattle.fault_lines.specs.Tellings.{fault_line};
ghost use Rattle.printing.specs.Laying.{laid};
ghost use Rattle.printing.specs.Outputs.{print_answer, print_kept};
ghost use Rattle.printing.specs.Pages.{on};

use crate::outputs::{Printable, ShortOutput, print_at_front, wanted};
use crate::pages::Page;
use fault_lines::layers::Layer;
use fault_lines::tellings::FaultLine;

// Lays the word of a layer.
fn layer_word(page: &mut Page<'_>, layer: Layer)
    ensures bytes { on page.new ≡ laid (on page.old) (layer_word layer) }
    ensures memory { page.new.out.ghost_name ≡ page.old.out.ghost_name }
{
    match layer {
        Layer::File => page.text(b"file"),
        Layer::Text => page.text(b"text"),
        Layer::Sheet => page.text(b"sheet"),
    }
}

// The line of a fault.
impl Printable for FaultLine {
    ghost bytes = { fault_line };

    fn lay(&self, page: &mut Page<'_>) {
        page.text(b"fault ");
        layer_word(page, self.layer);
        // The casts are proved to lose nothing; `try_from` would only add an `unwrap`.
        page.numbers(&[self.line as u64, u64::from(self.cause), self.place as u64]);
    }
}

// How many bytes the line of a fault takes.
pub fn fault_length(fault: FaultLine) -> usize
    ensures { result ≡ length (fault_line fault) }
{
    wanted(&fault)
}

// Prints the line of a fault at the front of the memory, and answers how many bytes it takes; or refuses memory that is too
// short for it, and writes nothing.
pub fn print_fault(fault: FaultLine, out: &mut [u8]) -> Result<usize, ShortOutput>
    ensures answer { result ≡ print_answer (fault_line fault) out.old }
    ensures kept { out.new ≡ print_kept (fault_line fault) out.old }
{
    print_at_front(&fault, out)
}

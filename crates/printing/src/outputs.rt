// What is printed into lent memory, where it is long enough.
ghost use Rattle.std.specs.Prelude.{◌≡◌, ℕ, List};
ghost use Rattle.printing.specs.Laying.{memory, laid, counted};
ghost use Rattle.printing.specs.Outputs.{short_output, room_for, print_answer, print_kept};
ghost use Rattle.printing.specs.Pages.{on};

use crate::pages::Page;

// The one refusal: the output memory is too short for all that is to be printed.
#[derive(Clone, Copy, Debug)]
pub struct ShortOutput;

impl ShortOutput {
    const NUMBER: u8 = 13;

    // The number by which the refusal is known outside.
    pub fn number(self) -> u8
        ensures { result ≡ short_output }
    {
        Self::NUMBER
    }
}

// What can be printed.
pub trait Printable {
    // All its bytes.
    ghost bytes: { Self → List ℕ };

    // Lays them.
    fn lay(&self, page: &mut Page<'_>)
        ensures bytes { on page.new ≡ laid (on page.old) (bytes self.now) }
        ensures memory { page.new.out.ghost_name ≡ page.old.out.ghost_name };
}

// Lays all of it at the front of the memory, and answers how many bytes that takes.
fn lay_at_front<P: Printable>(item: &P, out: &mut [u8]) -> usize
    ensures { memory result out.new ≡ laid (memory 0 out.old) (P.bytes item.now) }
{
    let mut page = Page { out, at: 0 };
    item.lay(&mut page);
    page.at
}

// How many bytes it takes, held at the greatest usize.
pub fn wanted<P: Printable>(item: &P) -> usize
    ensures { result ≡ counted (P.bytes item.now) }
{
    lay_at_front(item, &mut [])
}

// Refuses memory of fewer than `need` bytes.
fn room(need: usize, out: &[u8]) -> Result<(), ShortOutput>
    ensures { result ≡ room_for need out.now }
{
    if out.len() < need {
        return Err(ShortOutput);
    }
    Ok(())
}

// Prints it at the front of the memory, and answers how many bytes it takes; or refuses memory that is too short for it, and
// writes nothing.
pub fn print_at_front<P: Printable>(item: &P, out: &mut [u8]) -> Result<usize, ShortOutput>
    ensures answer { result ≡ print_answer (P.bytes item.now) out.old }
    ensures kept { out.new ≡ print_kept (P.bytes item.now) out.old }
{
    room(wanted(item), out)?;
    Ok(lay_at_front(item, out))
}

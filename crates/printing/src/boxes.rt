// The lines of the boxes of a sheet.
ghost use Rattle.std.specs.Prelude.{◌≡◌};
ghost use Rattle.printing.specs.Boxes.{box_line, total_line, printed};
ghost use Rattle.printing.specs.Laying.{laid, counted};
ghost use Rattle.printing.specs.Outputs.{print_answer, print_kept};
ghost use Rattle.printing.specs.Pages.{on};
ghost use Rattle.shapes.specs.Sides.{side_word};

use crate::outputs::{Printable, ShortOutput, print_at_front, wanted};
use crate::pages::Page;
use rules::boxes::{BoxRecord, LineBox, PanelBox, Totals, totalled};
use shapes::sides::Side;

impl Page<'_> {
    // Lays the word of a side.
    fn side_word(&mut self, side: Side)
        ensures bytes { on self.new ≡ laid (on self.old) (side_word side) }
        ensures memory { self.new.out.ghost_name ≡ self.old.out.ghost_name }
    {
        match side {
            Side::Left => self.text(b"left"),
            Side::Right => self.text(b"right"),
        }
    }

    // Lays the line of a box.
    fn box_line(&mut self, item: &BoxRecord)
        ensures bytes { on self.new ≡ laid (on self.old) (box_line item.now) }
        ensures memory { self.new.out.ghost_name ≡ self.old.out.ghost_name }
    {
        match *item {
            BoxRecord::Panel(
                PanelBox {
                    side,
                    x,
                    y,
                    width,
                    height,
                },
            ) => {
                self.text(b"panel ");
                self.side_word(side);
                self.numbers(&[x, y, width, height].map(u64::from));
            }
            BoxRecord::Line(LineBox { x, y, width, words }) => {
                self.text(b"line");
                self.numbers(&[x, y, width, words].map(u64::from));
            }
        }
    }

    // Lays the line of the totals.
    fn total_line(&mut self, totals: Totals)
        ensures bytes { on self.new ≡ laid (on self.old) (total_line totals) }
        ensures memory { self.new.out.ghost_name ≡ self.old.out.ghost_name }
    {
        self.text(b"total");
        self.numbers(&[totals.panels, totals.lines, totals.words]);
    }
}

// The lines of all boxes, and then that of their totals.
impl Printable for &[BoxRecord] {
    ghost bytes = { λ b. printed b.now };

    fn lay(&self, page: &mut Page<'_>) {
        let boxes = *self;
        for item in boxes {
            page.box_line(item);
        }
        page.total_line(totalled(boxes));
    }
}

// How many bytes `print` writes for these boxes. The count is held at the greatest usize; memory is never as long as that, so
// that what takes more is refused all the same.
pub fn printed_length(boxes: &[BoxRecord]) -> usize
    ensures { result ≡ counted (printed boxes.now) }
{
    wanted(&boxes)
}

// Prints the boxes and their totals at the front of the memory, and answers how many bytes they take; or refuses memory that
// is too short for them, and writes nothing.
pub fn print(boxes: &[BoxRecord], out: &mut [u8]) -> Result<usize, ShortOutput>
    ensures answer { result ≡ print_answer (printed boxes.now) out.old }
    ensures kept { out.new ≡ print_kept (printed boxes.now) out.old }
{
    print_at_front(&boxes, out)
}

#[cfg(test)]
mod tests {
    use super::*;

    // A panel and a line beside it.
    const BOXES: [BoxRecord; 2] = [
        BoxRecord::Panel(PanelBox {
            side: Side::Left,
            x: 0,
            y: 10,
            width: 30,
            height: 20,
        }),
        BoxRecord::Line(LineBox {
            x: 30,
            y: 10,
            width: 65,
            words: 3,
        }),
    ];

    #[test]
    fn a_panel_and_a_line_are_printed(rt: HostRuntime) {
        let mut out = [b'.'; 52];
        assert!(rt; print(&BOXES, &mut out).is_ok());
        assert!(rt; out == *b"panel left 0 10 30 20\nline 30 10 65 3\ntotal 1 1 3\n..");
    }

    #[test]
    fn one_byte_too_short_leaves_all_as_it_was(rt: HostRuntime) {
        let mut out = [b'.'; 49];
        assert_eq!(rt; printed_length(&BOXES), 50);
        assert!(rt; print(&BOXES, &mut out).is_err());
        assert!(rt; out == [b'.'; 49]);
    }
}

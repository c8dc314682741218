// Calls on a sheet, as the examples make them: lines of 10 rows, and 5 units for every byte.
ghost use Rattle.std.specs.Prelude.{◌≡◌, Some};
ghost use Rattle.sheet.specs.Sheets.{open_number};

use metrics::cells::Cell;
use places::parts::{Place, Span};
use reaches::reach::Reach;
use rules::boxes::{BoxRecord, LineBox};
use rules::refusals::Refusal;
use shapes::orders::Order;
use shapes::plain::Plain;
use shapes::sides::{Clear, Side};
use sheet::answers::Flowed;
use sheet::sheet::Sheet;
use sheet::sizes::SheetSize;
use sheet::slips::Slip;
use text::{Run, Word, measure};

// The size of a sheet, with lines of 10 rows.
pub(crate) const SIZE: SheetSize = SheetSize {
    width: 100,
    height: 60,
    line: 10,
};

// The margins of a whole sheet.
pub(crate) const WHOLE: Span = Span { from: 0, to: 100 };

pub(crate) const NO_BOX: BoxRecord = BoxRecord::Line(LineBox {
    x: 0,
    y: 0,
    width: 0,
    words: 0,
});

// Ends the open paragraph by its slip, which is never refused.
pub(crate) fn spend(sheet: &mut Sheet<'_>, own: Slip)
    requires { open_number sheet.old ≡ Some own.number }
{
    sheet.end(own).unwrap();
}

// Places a box, and answers where it stands, or the number of the refusal.
pub(crate) fn place(
    sheet: &mut Sheet<'_>,
    side: Side,
    width: u32,
    height: u32,
    clear: Clear,
) -> Result<Place, u8>
    ensures { open_number sheet.new ≡ open_number sheet.old }
{
    let shape = Plain::new(width, height).map_err(|_| Refusal::NoShape.number())?;
    sheet
        .panel(Order { shape, side, clear })
        .map_err(Refusal::number)
}

// Sets the words of a text of at most 8 words from a given one on.
pub(crate) fn flow(sheet: &mut Sheet<'_>, bytes: &[u8], from: usize) -> Flowed
    ensures { open_number sheet.new ≡ open_number sheet.old }
{
    let Ok(metrics) = Cell::new(5) else {
        return Flowed {
            set: 0,
            stopped: None,
        };
    };
    let mut words = [Word::default(); 8];
    let mut runs = [Run::default(); 16];
    let text = measure(&metrics, bytes, &mut words, &mut runs);
    sheet.flow(&text, from)
}

// A call of an example.
#[derive(Clone, Copy)]
pub(crate) enum Ask<'a> {
    // A box on this side, of this width and height.
    Panel(Side, u32, u32, Clear),
    // The words of this text.
    Words(&'a [u8]),
}

// Makes a call, and answers where its panel stands, or the line with its last word, if one is open.
fn asked(sheet: &mut Sheet<'_>, ask: Ask<'_>) -> Result<Option<Place>, u8>
    ensures { open_number sheet.new ≡ open_number sheet.old }
{
    match ask {
        Ask::Panel(side, width, height, clear) => place(sheet, side, width, height, clear).map(
            Some,
        ),
        Ask::Words(bytes) => match flow(sheet, bytes, 0).stopped {
            Some(refusal) => Err(refusal.number()),
            None => Ok(
                sheet.open_line().map(|line| Place {
                    x: line.x,
                    y: line.y,
                }),
            ),
        },
    }
}

// What the last of three calls is answered, on a sheet of 100 units by 60 rows with one paragraph open.
pub(crate) fn last(first: Ask<'_>, second: Ask<'_>, third: Ask<'_>) -> Result<Option<Place>, u8> {
    let mut cells = [Reach::default(); 128];
    let mut list = [NO_BOX; 9];
    let mut sheet = Sheet::new(SIZE, &mut cells, &mut list);
    let slip = sheet.open(WHOLE, Clear::None).map_err(Refusal::number)?;
    let _ = asked(&mut sheet, first);
    let _ = asked(&mut sheet, second);
    let told = asked(&mut sheet, third);
    spend(&mut sheet, slip);
    told
}

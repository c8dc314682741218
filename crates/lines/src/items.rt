// The items of a paragraph: `text ` and a text, `box SIDE CLEAR W P`, or `shape SIDE CLEAR I`.
ghost use Rattle.std.specs.Prelude.{◌≡◌};
ghost use Rattle.lexer.specs.FieldsLeft.{seen};
ghost use Rattle.lexer.specs.LinesLeft.{line_of};
ghost use Rattle.lines.specs.Items.{item_form, item_said, text_in, fields_form, box_from, boxed};

use crate::bounds::Below;
use crate::names::{ClearName, ItemName, ItemWord, SideName};
use lexer::faults::{Cause, Fault};
use lexer::fields::Fields;
use lexer::kinds::Number;
use lexer::lines::Line;
use shapes::sides::{Clear, Side};

// A panel that is a plain box.
#[derive(Clone, Copy)]
pub struct PlainLine {
    pub side: Side,
    pub clear: Clear,
    pub width: u16,
    pub height: u16,
}

// A panel that is one of the shapes, by its index.
#[derive(Clone, Copy)]
pub struct ShapedLine {
    pub side: Side,
    pub clear: Clear,
    pub index: u16,
}

#[derive(Clone, Copy)]
pub enum Item<'a> {
    // The bytes of a text; there may be none.
    Text(&'a [u8]),
    Plain(PlainLine),
    Shaped(ShapedLine),
}

// `SIDE CLEAR W P`, as it stands behind the keyword of a plain box; the cursor moves past it.
pub fn take_plain(fields: &mut Fields<'_>) -> Result<PlainLine, Fault>
    ensures value { boxed fields.new.place result ≡ box_from fields.old.line.bytes.now fields.old.place }
    ensures line { fields.new.line ≡ fields.old.line }
{
    let side = fields.take(&SideName)?;
    let clear = fields.take(&ClearName)?;
    let width = fields.take(&Number)?;
    let height = fields.take(&Number)?;
    Ok(PlainLine {
        side,
        clear,
        width,
        height,
    })
}

// An item of fields. The keyword `text` has no space behind it here.
fn fields_line<'a>(line: Line<'a>, shapes: u16) -> Result<Item<'a>, Fault>
    ensures { item_said result ≡ fields_form shapes (line_of line.entry) }
{
    let mut fields = Fields::new(line);
    match fields.take(&ItemName)? {
        ItemWord::Text => Err(fields.fault(Cause::Field)),
        ItemWord::Plain => {
            let plain = take_plain(&mut fields)?;
            fields.end()?;
            Ok(Item::Plain(plain))
        }
        ItemWord::Shaped => {
            let side = fields.take(&SideName)?;
            let clear = fields.take(&ClearName)?;
            let index = fields.take(&Below { bound: shapes })?;
            fields.end()?;
            Ok(Item::Shaped(ShapedLine { side, clear, index }))
        }
    }
}

// The text behind `text `, where a line begins so.
fn text_of<'a>(bytes: &'a [u8]) -> Option<&'a [u8]>
    ensures { seen result ≡ text_in bytes.now }
{
    match bytes {
        [b't', b'e', b'x', b't', b' ', text @ ..] => Some(text),
        _ => None,
    }
}

// An item, where there are so many shapes. Behind `text ` all bytes are the text's.
pub fn item_line<'a>(line: Line<'a>, shapes: u16) -> Result<Item<'a>, Fault>
    ensures { item_said result ≡ item_form shapes (line_of line.entry) }
{
    let Some(text) = text_of(line.bytes) else {
        return fields_line(line, shapes);
    };
    line.closed()?;
    Ok(Item::Text(text))
}

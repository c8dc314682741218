// Setting the paragraphs of a file.
use crate::cursors::Cursor;
use crate::desks::Desk;
use sheet::sheet::Sheet;
use text::{Run, Word};

// The items of a paragraph.
pub(crate) mod item_by_item;

// The paragraphs of a file.
pub(crate) mod para_by_para;

// A sheet, what its items are read against, the lines that are left, and the memory for the words of a text.
#[derive(Drop)]
pub struct Setter<'s, 'a, 'f> {
    pub(crate) sheet: &'s mut Sheet<'a>,
    pub(crate) desk: Desk,
    pub(crate) cursor: Cursor<'f>,
    pub(crate) words: &'s mut [Word],
    pub(crate) runs: &'s mut [Run],
}

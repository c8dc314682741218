// The open paragraph of a sheet.
use places::parts::Span;

// Its number, counted from 1 on each sheet, its margins, and the row that it begins at.
#[derive(Clone, Copy)]
pub struct Paragraph {
    pub number: u16,
    pub margins: Span,
    pub top: u32,
}

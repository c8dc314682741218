// The size of a sheet.

// How many units wide a sheet is, how many rows high, and how many rows a line of it has.
#[derive(Clone, Copy)]
pub struct SheetSize {
    pub width: u32,
    pub height: u32,
    pub line: u32,
}

// What the items of a file are read against.
use items::shelves::Shelf;
use scales::Scale;

// The sheet's width, the metrics that texts are measured by, and the staircases that the file names.
#[derive(Clone, Copy)]
pub(crate) struct Desk {
    pub(crate) width: u32,
    pub(crate) scale: Scale,
    pub(crate) shelf: Shelf,
}

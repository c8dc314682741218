// What the calls of a sheet answer, and what it leaves.
use reaches::reach::Reach;
use rules::boxes::BoxRecord;
use rules::refusals::Refusal;

// Why no sheet is made, and the memory that was lent for it.
#[derive(Debug, Drop)]
pub struct Unmade<'a> {
    pub refusal: Refusal,
    pub cells: &'a mut [Reach],
    pub list: &'a mut [BoxRecord],
}

// How many words were set, and why the next was not, if there is a next. It is no `Result`: both parts are wanted in both
// cases.
#[derive(Clone, Copy)]
pub struct Flowed {
    pub set: usize,
    pub stopped: Option<Refusal>,
}

// The list of a sheet that is let go: the boxes that were set, the oldest first, and the records that were not used.
#[derive(Clone, Copy)]
pub struct Finished<'a> {
    pub boxes: &'a [BoxRecord],
    pub spare: &'a [BoxRecord],
}

// What a sheet holds, with what keeps each index and each sum in its range. `Sheet` holds one that some calls led to.
// What the clauses `keeps`, `sets` and `same` of its calls say is of two stores, before and after, and so no type's.
// The list is lent whole, with the count of the records in use beside it, since what the rest hold is told too.
ghost use Rattle.std.specs.Prelude.{◌≡◌, ◌+◌, ◌<◌, ◌≤◌, length, take, Some};
ghost use Rattle.places.specs.declared.parts.Line.{Line};
ghost use Rattle.rules.specs.Account.{reserved};
ghost use Rattle.rules.specs.declared.paragraphs.Paragraph.{Paragraph};

use crate::clearance::Bottoms;
use places::parts::Line;
use rows::Rows;
use rules::boxes::BoxRecord;
use rules::paragraphs::Paragraph;

// Setting the words of a text.
pub(crate) mod flows;
// Setting one word.
pub(crate) mod lines;
// A new sheet.
pub(crate) mod make;
// Placing a panel.
pub(crate) mod panels;
// Opening and ending a paragraph.
pub(crate) mod paragraphs;

#[derive(Drop)]
pub struct Store<'a> {
    pub(crate) rows: Rows<'a>,
    pub(crate) list: &'a mut [BoxRecord],
    // How many rows a line has.
    pub(crate) line: u32,
    // How many records the list has.
    pub(crate) used: usize,
    // The greatest top of the panels and lines so far.
    pub(crate) top: u32,
    pub(crate) bottoms: Bottoms,
    // The first row for a line where none is open.
    pub(crate) cursor: u32,
    // How many paragraphs were opened.
    pub(crate) count: u16,
    pub(crate) para: Option<Paragraph>,
    pub(crate) current: Option<Line>,
    // Sizes stay in their ranges.
    ghost wide: { rows.width ≤ 4096 },
    ghost high: { rows.height ≤ 4096 },
    ghost low: { line ≤ 255 },
    // The list has a place for the open line.
    ghost places: { used + reserved current ≤ length list.now },
    // The open line ends on the sheet, and each of its words takes a unit or more.
    ghost ends: { (l : Line) → current ≡ Some l → l.top + line ≤ rows.height },
    ghost words: { (l : Line) → current ≡ Some l → l.words ≤ l.used },
    // The open paragraph's margins leave a unit, and end on the sheet.
    ghost margins: { (p : Paragraph) → para ≡ Some p → (p.margins.from < p.margins.to) × (p.margins.to ≤ rows.width) },
}

impl<'a> Store<'a> {
    // The records in use.
    pub(crate) fn boxes(&self) -> &[BoxRecord]
        ensures { result.now ≡ take self.now.used self.now.list.now }
    {
        &self.list[..self.used]
    }
}

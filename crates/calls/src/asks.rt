// What a line of a script asks for.
use lines::flights::StepsLine;
use lines::items::PlainLine;
use places::parts::Span;
use scales::headings::MetricLine;
use shapes::sides::{Clear, Side};
use sheet::sizes::SheetSize;

// A new sheet: its size, and the places of its list.
#[derive(Clone, Copy)]
pub struct Size {
    pub sheet: SheetSize,
    pub places: u16,
}

// A new paragraph.
#[derive(Clone, Copy)]
pub struct Opening {
    pub margins: Span,
    pub clear: Clear,
}

// A panel that is a staircase.
#[derive(Clone, Copy)]
pub struct StairsPanel {
    pub side: Side,
    pub clear: Clear,
    pub flight: StepsLine,
}

// The words of a text from a given one on, counted from 0.
#[derive(Clone, Copy)]
pub struct Passage<'a> {
    pub from: u16,
    pub bytes: &'a [u8],
}

#[derive(Clone, Copy)]
pub enum Ask<'a> {
    Sheet(Size),
    Metric(MetricLine),
    Open(Opening),
    Plain(PlainLine),
    Stairs(StairsPanel),
    Text(Passage<'a>),
    End,
    Totals,
}

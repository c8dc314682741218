// The calls that lines ask for, with the slip in hand.
ghost use Rattle.std.specs.Prelude.{◌≡◌, length, Some, None, OnErr};
ghost use Rattle.shapes.specs.Made.{answered};
ghost use Rattle.shapes.specs.Box.{make_box};
ghost use Rattle.shapes.specs.Staircase.{make_stairs};
ghost use Rattle.shapes.specs.Steps.{steps_in};
ghost use Rattle.text.specs.Fault.{text_fault};
ghost use Rattle.text.specs.Measure.{space_byte};
ghost use Rattle.rules.specs.Runs.{ends, ended};
ghost use Rattle.sheet.specs.Sheets.{open_number, Tells};
ghost use Rattle.calls.specs.Scales.{advances_of};
ghost use Rattle.calls.specs.Turns.{Opens, Places, Flows, Ends};

use crate::asks::{Ask, Opening, Passage, StairsPanel};
use crate::hands::Hand;
use crate::reading::read;
use crate::replies::{Answer, Reply, Row};
use lexer::lines::Line;
use lines::items::PlainLine;
use metrics::advances::Metrics;
use rules::refusals::Refusal;
use scales::headings::MetricLine;
use shapes::orders::Order;
use shapes::plain::Plain;
use shapes::sides::{Clear, Side};
use shapes::stairs::Stairs;
use shapes::{NoShape, Shape};
use sheet::sheet::Sheet;
use sheet::slips::Slip;
use text::{Run, Text, Word};

// At each function that places or sets, `number` says that the same paragraph stays open, where `told` says what was called.

// Places a panel of this shape, if the numbers made one. It stands beside that of `items`, since the answer here is printed.
fn place<S: Shape + Drop>(
    sheet: &mut Sheet<'_>,
    shape: Result<S, NoShape>,
    side: Side,
    clear: Clear,
) -> Answer
    ensures number { open_number sheet.new ≡ open_number sheet.old }
    ensures told { Places side clear (answered S.model shape) result sheet.old sheet.new }
{
    let shape = shape?;
    Ok(Reply::Panel(sheet.panel(Order { shape, side, clear })?))
}

fn plain(sheet: &mut Sheet<'_>, panel: PlainLine) -> Answer
    ensures number { open_number sheet.new ≡ open_number sheet.old }
    ensures told { Places panel.side panel.clear (make_box panel.width panel.height) result sheet.old sheet.new }
{
    let shape = Plain::new(u32::from(panel.width), u32::from(panel.height));
    place(sheet, shape, panel.side, panel.clear)
}

fn stairs(sheet: &mut Sheet<'_>, panel: StairsPanel) -> Answer
    ensures number { open_number sheet.new ≡ open_number sheet.old }
    ensures told { Places panel.side panel.clear (make_stairs panel.flight.width (steps_in panel.flight.steps)) result sheet.old sheet.new }
{
    let shape = Stairs::new(u32::from(panel.flight.width), panel.flight.steps.as_slice());
    place(sheet, shape, panel.side, panel.clear)
}

// Measures the text and sets its words, from the given one on. That of `items` refuses what is not set in full; this one
// answers how far it came, so that neither is the other with another error.
fn flow<M: Metrics>(
    sheet: &mut Sheet<'_>,
    metrics: &M,
    passage: Passage<'_>,
    words: &mut [Word],
    runs: &mut [Run],
) -> Answer
    ensures number { open_number sheet.new ≡ open_number sheet.old }
    ensures told { Flows (text_fault passage.entry.bytes.now (length words.old) (length runs.old)) (advances_of (M.advances metrics.now) passage.entry.bytes.now) ((M.advances metrics.now) space_byte) passage.entry.from result sheet.old sheet.new }
{
    let text = Text::new(metrics, passage.bytes, words, runs)?;
    Ok(Reply::Flowed(sheet.flow(&text, usize::from(passage.from))))
}

// Ends the open paragraph with its own slip, which is never refused. It stands here and in `sheet_file`, and not at the sheet,
// whose calls ask nothing of their caller.
fn spend(sheet: &mut Sheet<'_>, own: Slip)
    requires { open_number sheet.old ≡ Some own.number }
    ensures { Tells (ends own.number) ended sheet.old sheet.new }
{
    sheet.end(own).unwrap();
}

impl<'a> Hand<'a> {
    // A metrics that cannot be made leaves the one before it.
    fn set_metric(&mut self, asked: MetricLine) -> Answer
        ensures sheet { self.new.sheet ≡ self.old.sheet }
        ensures slip { self.new.slip ≡ self.old.slip }
        ensures scale { OnErr result (self.new.scale ≡ self.old.scale) }
    {
        self.scale = asked.scale()?;
        Ok(Reply::Metric)
    }

    // A sheet with an open paragraph opens no other, so that there is never a second slip.
    fn open(&mut self, opening: Opening) -> Answer
        ensures { Opens opening.margins opening.clear result self.new.slip self.old.sheet self.new.sheet }
    {
        let slip = self.sheet.open(opening.margins, opening.clear)?;
        // Both arms stand, since a slip that is let go wants a proof that there is none.
        match self.slip.replace(slip) {
            None => {}
            Some(_) => unreachable(),
        }
        self.opened = self.opened.saturating_add(1);
        Ok(Reply::Opened(self.opened))
    }

    // Where no slip is in hand, no call is made.
    fn end(&mut self) -> Answer
        ensures hand { self.new.slip ≡ None }
        ensures told { Ends self.old.slip result self.old.sheet self.new.sheet }
    {
        let own = self.slip.take().ok_or(Refusal::NoParagraph)?;
        spend(&mut self.sheet, own);
        Ok(Reply::Ended)
    }

    // The sheet, after the paragraph that is still open at the end of the script is ended: a slip has to be spent.
    pub(crate) fn finish(self) -> Sheet<'a> {
        let Hand {
            mut sheet,
            slip,
            opened: _,
            scale: _,
        } = self;
        if let Some(left) = slip {
            spend(&mut sheet, left);
        }
        sheet
    }

    // What a line is answered. A line of no form, or a second `sheet`, calls nothing. The answers of the calls on the sheet
    // show the line that is open after them.
    pub(crate) fn turn(&mut self, line: Line<'_>, words: &mut [Word], runs: &mut [Run]) -> Row {
        let Some(ask) = read(line) else {
            return Row::Answer(Ok(Reply::Skipped), None);
        };
        // Each kind of line is another call, so that the kinds are told apart here and nowhere else.
        let answer = match ask {
            Ask::Sheet(_) => return Row::Answer(Ok(Reply::Skipped), None),
            Ask::Metric(asked) => return Row::Answer(self.set_metric(asked), None),
            Ask::Totals => return Row::Answer(Ok(Reply::Totals(self.sheet.totals())), None),
            Ask::Open(opening) => self.open(opening),
            Ask::Plain(panel) => plain(&mut self.sheet, panel),
            Ask::Stairs(panel) => stairs(&mut self.sheet, panel),
            Ask::Text(passage) => flow(&mut self.sheet, &self.scale, passage, words, runs),
            Ask::End => self.end(),
        };
        Row::Answer(answer, self.sheet.open_line())
    }
}

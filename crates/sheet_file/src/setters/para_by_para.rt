// The paragraphs of a file.
ghost use Rattle.std.specs.Prelude.{◌≡◌, Some, OnOk};
ghost use Rattle.rules.specs.Runs.{ends, ended};
ghost use Rattle.sheet.specs.Sheets.{open_number, Tells};
ghost use Rattle.items.specs.Spares.{Spares};
ghost use Rattle.sheet_file.specs.Cursors.{ahead, number};
ghost use Rattle.sheet_file.specs.Done.{fault_in, ParaDone, ParasDone, Goes};
ghost use Rattle.sheet_file.specs.Plans.{heading_of, margins_of, para_of, paras_plan};
ghost use Rattle.sheet_file.specs.Setters.{setting_of, Holds};
ghost use Rattle.sheet_file.specs.Turns.{Took, Turned, Forward};

use crate::cursors::Cursor;
use crate::readers::formed;
use crate::setters::Setter;
use items::faults::{FileFault, Located};
use lines::paragraphs::{ParaLine, para_line};
use places::parts::Span;
use sheet::sheet::Sheet;
use sheet::slips::Slip;

// The most items of a paragraph.
const MOST_ITEMS: u16 = 64;

// The margins of a paragraph, by its insets from the sheet's edges. Where the right one is more than the sheet is wide,
// the margins end at 0.
fn margins(width: u32, head: ParaLine) -> Span
    ensures { result ≡ margins_of width head }
{
    Span {
        from: u32::from(head.left),
        to: width.saturating_sub(u32::from(head.right)),
    }
}

// Ends the open paragraph with its own slip, which is never refused. It stands here and in `calls`, and not at the sheet,
// whose calls ask nothing of their caller.
fn spend(sheet: &mut Sheet<'_>, own: Slip)
    requires { open_number sheet.old ≡ Some own.number }
    ensures told { Tells (ends own.number) ended sheet.old sheet.new }
    ensures spares { Spares sheet.old sheet.new }
{
    sheet.end(own).unwrap();
}

// The line that the next paragraph begins with.
fn next_heading(cursor: &mut Cursor<'_>) -> Result<ParaLine, Located>
    ensures { Took (λ h. h) heading_of cursor.old result cursor.new }
{
    let line = cursor.next()?;
    cursor.judge(formed(para_line(line, MOST_ITEMS)))
}

impl<'s, 'a, 'f> Setter<'s, 'a, 'f> {
    // Opens the paragraph whose first line was read last, sets its items and ends it.
    fn fill(&mut self, head: ParaLine) -> Result<(), Located>
        ensures holds { Holds self.old self.new }
        ensures forward { OnOk result (Forward head.items self.old.cursor self.new.cursor) }
        ensures told { Goes (λ es fs. ParaDone (para_of (setting_of self.old) self.old.cursor.read head (ahead self.old.cursor)) es fs (fault_in result)) self.old.sheet.now self.new.sheet.now }
    {
        let opened = self.sheet.open(margins(self.desk.width, head), head.clear);
        let slip = self.cursor.judge(opened.map_err(FileFault::from))?;
        let done = self.set_items(head.items);
        spend(self.sheet, slip);
        done
    }

    // Sets the next paragraph.
    fn next_paragraph(&mut self) -> Result<(), Located>
        ensures holds { Holds self.old self.new }
        ensures told { Turned ParasDone (paras_plan (setting_of self.old)) self.old.cursor result self.new.cursor self.old.sheet.now self.new.sheet.now }
    {
        let head = next_heading(&mut self.cursor)?;
        self.fill(head)
    }

    // Sets the next `count` paragraphs, up to the first fault; no line may stand behind them.
    pub(crate) fn set_paragraphs(&mut self, count: u16) -> Result<(), Located>
        ensures holds { Holds self.old self.new }
        ensures told { Goes (λ es fs. ParasDone (paras_plan (setting_of self.old) count (number self.old.cursor) (ahead self.old.cursor)) es fs (fault_in result)) self.old.sheet.now self.new.sheet.now }
    {
        for _ in 0..count {
            self.next_paragraph()?;
        }
        self.cursor.end()
    }
}

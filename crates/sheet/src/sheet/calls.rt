// The calls of a sheet. Each is one call of its store, and bears the law over all calls before it. What several clauses say
// alike stands in each, since it is what the call promises of the sheet before it and the sheet after it.
ghost use Rattle.std.specs.Prelude.{◌≡◌, true, [], length, drop, is_some, is_ok, IfOk, IfErr, MatchResult, Some, OnErr, OnOk};
ghost use Rattle.rows.specs.Asked.{wanted};
ghost use Rattle.rows.specs.Fit.{Stays};
ghost use Rattle.rules.specs.Boxes.{totals_of};
ghost use Rattle.rules.specs.Runs.{opens, flows, panels, ends};
ghost use Rattle.sheet.specs.View.{Rest};
ghost use Rattle.sheet.specs.Fresh.{new_size, cells_used};
ghost use Rattle.sheet.specs.Made.{Makes};
ghost use Rattle.sheet.specs.Stores.{open_answer, panel_answer, flow_answer, end_answer, advances_in};
ghost use Rattle.sheet.specs.Sheets.{fields, open_number, boxes_in, Past, Tells, Ever, Shows, Lists};

use super::Sheet;
use crate::answers::{Finished, Flowed, Unmade};
use crate::sizes::SheetSize;
use crate::slips::Slip;
use crate::store::Store;
use crate::store::make::fault;
use places::parts::{Place, Span};
use reaches::reach::Reach;
use rules::boxes::{BoxRecord, LineBox, Totals, totalled};
use rules::refusals::Refusal;
use shapes::Shape;
use shapes::orders::Order;
use shapes::sides::Clear;
use text::Text;

impl<'a> Sheet<'a> {
    // A new sheet over lent cells and a lent list. Of a size that `fault` refuses it makes one whose opens are all
    // refused, and writes nothing.
    pub fn new(size: SheetSize, cells: &'a mut [Reach], list: &'a mut [BoxRecord]) -> Sheet<'a>
        ensures account { Past (new_size size (length cells.old) (length list.old)) [] result }
        ensures named { result.store.list.ghost_name ≡ list.entry.ghost_name }
        ensures list { result.store.list.now ≡ list.old }
        ensures rest { drop (cells_used size (length cells.old)) result.store.rows.tree.cells.now ≡ drop (cells_used size (length cells.old)) cells.old }
    {
        let store = Store::new(size, cells, list);
        Sheet { store }
    }

    // A new sheet of just this size over lent cells and a lent list. Of a size that `fault` refuses none is made, and the
    // memory is handed back as it was.
    pub fn try_new(
        size: SheetSize,
        cells: &'a mut [Reach],
        list: &'a mut [BoxRecord],
    ) -> Result<Sheet<'a>, Unmade<'a>>
        ensures made { Makes size cells.old list.old result }
        ensures named { MatchResult result (λ s. s.store.list.ghost_name ≡ list.entry.ghost_name) (λ u. u.list.ghost_name ≡ list.entry.ghost_name) }
        ensures cells { IfErr result (λ u. u.cells.ghost_name ≡ cells.entry.ghost_name) }
    {
        if let Some(refusal) = fault(size, cells.len()) {
            return Err(Unmade {
                refusal,
                cells,
                list,
            });
        }
        Ok(Sheet::new(size, cells, list))
    }

    // Opens a paragraph between margins, below the panels of the cleared sides. The slip is for `end`.
    pub fn open(&mut self, margins: Span, clear: Clear) -> Result<Slip, Refusal>
        ensures named { self.new.store.list.ghost_name ≡ self.old.store.list.ghost_name }
        ensures same { OnErr result (fields self.new ≡ fields self.old) }
        ensures memory { (self.new.store.rows ≡ self.old.store.rows) × (self.new.store.list.now ≡ self.old.store.list.now) }
        ensures rest { Rest (fields self.old) (fields self.new) }
        ensures number { IfOk result (λ s. open_number self.new ≡ Some s.number) }
        ensures ever { Ever self.new }
        ensures account { Tells (opens margins clear) (open_answer result) self.old self.new }
    {
        self.store.open(margins, clear)
    }

    // Sets the words of a text from a given one on, counted from 0, up to the first that is refused.
    pub fn flow(&mut self, text: &Text<'_>, from: usize) -> Flowed
        ensures named { self.new.store.list.ghost_name ≡ self.old.store.list.ghost_name }
        ensures same { result.set ≡ 0 → is_some result.stopped ≡ true → fields self.new ≡ fields self.old }
        ensures rest { Rest (fields self.old) (fields self.new) }
        ensures rows { self.new.store.rows ≡ self.old.store.rows }
        ensures para { self.new.store.para ≡ self.old.store.para }
        ensures ever { Ever self.new }
        ensures account { Tells (flows (advances_in text.now) text.now.space from) (flow_answer result) self.old self.new }
    {
        self.store.flow(text, from)
    }

    // Places a panel, and answers where it stands.
    pub fn panel<S: Shape + Drop>(&mut self, order: Order<S>) -> Result<Place, Refusal>
        ensures named { self.new.store.list.ghost_name ≡ self.old.store.list.ghost_name }
        ensures same { OnErr result (fields self.new ≡ fields self.old) }
        ensures rest { Rest (fields self.old) (fields self.new) }
        ensures rows { OnOk result (Stays self.old.store.rows self.new.store.rows) }
        ensures para { self.new.store.para ≡ self.old.store.para }
        ensures ever { Ever self.new }
        ensures account { Tells (panels (wanted order.side order.clear (S.model order.shape))) (panel_answer result) self.old self.new }
    {
        self.store.panel(order)
    }

    // Ends the paragraph and spends its slip; a refusal hands the slip back.
    pub fn end(&mut self, slip: Slip) -> Result<(), (Refusal, Slip)>
        ensures named { self.new.store.list.ghost_name ≡ self.old.store.list.ghost_name }
        ensures same { IfErr result (λ b. (fields self.new ≡ fields self.old) × (b.1 ≡ slip)) }
        ensures rest { Rest (fields self.old) (fields self.new) }
        ensures rows { self.new.store.rows ≡ self.old.store.rows }
        ensures own { open_number self.old ≡ Some slip.number → is_ok result ≡ true }
        ensures ever { Ever self.new }
        ensures account { Tells (ends slip.number) (end_answer result) self.old self.new }
    {
        self.store.end(slip)
    }

    // The open line, as the box that it would have if it closed now.
    pub fn open_line(&self) -> Option<LineBox>
        ensures { Shows result self.now }
    {
        self.store.open_line()
    }

    // The boxes of the list, the oldest first. An open line has none yet.
    pub fn boxes(&self) -> &[BoxRecord]
        ensures list { result.now ≡ boxes_in self.now }
        ensures account { Lists result.now self.now }
    {
        self.store.boxes()
    }

    // How many panels and lines the list holds, and how many words its lines have.
    pub fn totals(&self) -> Totals
        ensures { result ≡ totals_of (boxes_in self.now) }
    {
        totalled(self.store.boxes())
    }

    // Lets the sheet go, and hands back its list. An open line has no box in it.
    pub fn finish(self) -> Finished<'a>
        ensures list { result.boxes.now ≡ boxes_in self.entry }
        ensures spare { result.spare.now ≡ drop self.entry.store.used self.entry.store.list.now }
        ensures account { Lists result.boxes.now self.entry }
    {
        let Sheet { store } = self;
        let Store { list, used, .. } = store;
        let (boxes, spare) = list.split_at(used);
        Finished { boxes, spare }
    }
}
